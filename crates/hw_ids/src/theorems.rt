//! What holds of the definitions that the contracts of this crate are written in.
ghost use Rattle.std.specs.Prelude.{◌≡◌};
ghost use Rattle.hw_ids.specs.declared.class_ids.TheConstants.{MAX_CLASSES};
ghost use Rattle.hw_ids.specs.declared.rmids.TheConstants.{MAX_RMIDS};
ghost use Rattle.hw_ids.specs.Ids.{ChangeMembers};

/// The members of a set of ids with one more, and without one.
pub fn members()
    ensures { ChangeMembers }
{}

/// The limits are these numbers (this project's profile). Every other clause cites a limit by its name.
pub fn limits_are_stated()
    ensures classes { MAX_CLASSES ≡ 64 }
    ensures rmids { MAX_RMIDS ≡ 256 }
{}
