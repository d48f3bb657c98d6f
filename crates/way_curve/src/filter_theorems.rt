//! The law of what levels leave of a trace, proved with an empty body, and the room that it takes.
ghost use Rattle.std.specs.Prelude.{◌≡◌};
ghost use Rattle.way_curve.specs.FilterTexts.{FilteredReadsBack};
ghost use Rattle.way_curve.specs.declared.filter_limits.TheConstants.{MOST_FILTERED_BYTES};

/// What levels leave of a trace, as a trace, has just the uses that they leave.
pub fn filtered_reads_back()
    ensures { FilteredReadsBack }
{}

/// The limit is this number (this project's profile). Every other clause cites it by its name.
pub fn limits_are_stated()
    ensures filtered { MOST_FILTERED_BYTES ≡ 2_990 }
{}
