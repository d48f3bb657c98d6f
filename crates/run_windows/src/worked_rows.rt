//! The rows, each proved with an empty body.

ghost use Rattle.run_windows.specs.LockRows.{FlushedRegion, RemovedRegion};
ghost use Rattle.run_windows.specs.SliceRows.{CoveredRow, DroppedLines, LoadedRow, PrivateRow};

/// What the definitions of isolation say of a few entries of a slice.
pub fn rows_of_slices_hold()
    ensures private { PrivateRow }
    ensures covered { CoveredRow }
    ensures drops { DroppedLines }
    ensures loaded { LoadedRow }
{}

/// Where the window of a locked region ends in two runs: at a flush, and where its group is removed.
pub fn rows_of_regions_hold()
    ensures flushed { FlushedRegion }
    ensures removed { RemovedRegion }
{}
