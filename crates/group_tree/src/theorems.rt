//! The number of places for groups.
ghost use Rattle.std.specs.Prelude.{◌≡◌, ◌+◌};
ghost use Rattle.group_tree.specs.declared.groups.TheConstants.{PLACES};

/// There are places for as many groups as can have a class, be pseudo-locked or have an RMID (this project's profile). Every other
/// clause cites the number by its name.
pub fn limits_are_stated()
    ensures { PLACES ≡ 64 + 8 + 256 }
{}
