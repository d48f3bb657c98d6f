//! The limits of a division by their numbers.
ghost use Rattle.std.specs.Prelude.{◌≡◌, ◌^◌};
ghost use Rattle.way_plans.specs.declared.division_limits.TheConstants.{MOST_GROUPS, MOST_MISSES, MOST_STATES, MOST_WAYS};

/// The limits are these numbers (this project's profile). Every other clause of a public call cites a limit by its name.
pub fn limits_are_stated()
    ensures ways { MOST_WAYS ≡ 32 }
    ensures groups { MOST_GROUPS ≡ 64 }
    ensures misses { MOST_MISSES ≡ 2 ^ 48 }
    ensures states { MOST_STATES ≡ 2 ^ 14 }
{}
