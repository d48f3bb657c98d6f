//! The limits of a trace by their numbers.
ghost use Rattle.std.specs.Prelude.{◌≡◌, ◌^◌};
ghost use Rattle.way_curve.specs.declared.limits.TheConstants.{MOST_LINE_BYTES, MOST_TRACE_BYTES};

/// The limits are these numbers (this project's profile). Every other clause cites a limit by its name.
pub fn limits_are_stated()
    ensures line { MOST_LINE_BYTES ≡ 65_536 }
    ensures trace { MOST_TRACE_BYTES ≡ 2 ^ 57 }
{}
