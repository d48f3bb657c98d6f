//! The limits of paths by their numbers.
ghost use Rattle.std.specs.Prelude.{◌≡◌};
ghost use Rattle.path_names.specs.declared.components.TheConstants.{MOST_NAME_BYTES};
ghost use Rattle.path_names.specs.declared.paths.TheConstants.{MOST_PATH_NAMES};

/// The limits are these numbers (this project's profile). Every other clause cites a limit by its name.
pub fn limits_are_stated()
    ensures name { MOST_NAME_BYTES ≡ 255 }
    ensures path { MOST_PATH_NAMES ≡ 4 }
{}
