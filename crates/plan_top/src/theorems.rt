//! The limits of the caches by their numbers, and the usage line by its bytes.
ghost use Rattle.std.specs.Prelude.{◌≡◌};
ghost use Rattle.plan_top.specs.Forms.{usage_line};
ghost use Rattle.plan_top.specs.declared.limits.TheConstants.{MOST_SETS, MOST_WAYS};
ghost use Rattle.plan_top.specs.declared.words.TheConstants.{USAGE};
ghost use Rattle.way_curve.specs.declared.recent_lines.TheConstants.{MOST_WAYS as MOST_CURVE_WAYS};

/// The limits are these numbers (this project's profile). Every other clause cites a limit by its name.
pub fn limits_are_stated()
    ensures sets { MOST_SETS ≡ 1_048_576 }
    ensures ways { MOST_WAYS ≡ 32 }
    ensures curve_ways { MOST_CURVE_WAYS ≡ 32 }
    ensures usage { USAGE.now ≡ usage_line }
{}
