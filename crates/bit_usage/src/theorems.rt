//! The letters, and the room of their text.
ghost use Rattle.std.specs.Prelude.{◌≡◌, ◌∷◌, [], codes};
ghost use Rattle.bit_usage.specs.declared.letters.TheConstants.{EXCLUSIVE, HARDWARE, HARDWARE_AND_SOFTWARE, PSEUDO_LOCKED, SOFTWARE, UNUSED};
ghost use Rattle.bit_usage.specs.declared.printing.TheConstants.{USAGE_MAX};

/// The letters of a way are these (kernel documentation, "Info directory", on `bit_usage`). Every other clause cites a letter by its
/// name.
pub fn letters_are_stated()
    ensures { PSEUDO_LOCKED ∷ EXCLUSIVE ∷ HARDWARE_AND_SOFTWARE ∷ HARDWARE ∷ SOFTWARE ∷ UNUSED ∷ [] ≡ codes "PEXHS0" }
{}

/// The room of a text is this number (this project's profile).
pub fn limits_are_stated()
    ensures { USAGE_MAX ≡ 512 }
{}
