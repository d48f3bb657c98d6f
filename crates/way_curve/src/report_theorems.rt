//! The limits of what is written by their numbers.
ghost use Rattle.std.specs.Prelude.{◌≡◌};
ghost use Rattle.way_curve.specs.declared.report_limits.TheConstants.{MOST_LEVELS_BYTES, MOST_REFUSAL_BYTES, MOST_REPORT_BYTES, MOST_SAMPLE_BYTES};

/// The limits are these numbers (this project's profile). Every other clause cites a limit by its name.
pub fn limits_are_stated()
    ensures report { MOST_REPORT_BYTES ≡ 15_800 }
    ensures sample { MOST_SAMPLE_BYTES ≡ 72 }
    ensures levels { MOST_LEVELS_BYTES ≡ 120 }
    ensures refusal { MOST_REFUSAL_BYTES ≡ 48 }
{}
