//! The limits of a division by their numbers.
ghost use Rattle.std.specs.Prelude.{◌≡◌, ◌+◌, ◌^◌, ◌*◌};
ghost use Rattle.share_plans.specs.declared.division_limits.TheConstants.{MOST_PROGRAMS, MOST_USES, MOST_WAYS, MOST_WEIGHT};

/// The limits are these numbers (this project's profile). Every other clause of a public call cites a limit by its name.
pub fn limits_are_stated()
    ensures ways { MOST_WAYS ≡ 32 }
    ensures programs { MOST_PROGRAMS ≡ 32 }
    ensures weight { MOST_WEIGHT ≡ 1_000 }
    ensures uses { MOST_USES ≡ 65 * (2 ^ 42 + 1) }
{}
