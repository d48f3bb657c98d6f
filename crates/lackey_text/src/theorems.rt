//! The limits of a line by their numbers.
ghost use Rattle.std.specs.Prelude.{◌≡◌, ◌^◌};
ghost use Rattle.lackey_text.specs.declared.limits.TheConstants.{MEMORY_BYTES, MOST_SIZE};

/// The limits are these numbers (this project's profile). Every other clause cites a limit by its name.
pub fn limits_are_stated()
    ensures memory { MEMORY_BYTES ≡ 2 ^ 48 }
    ensures size { MOST_SIZE ≡ 4_096 }
{}
