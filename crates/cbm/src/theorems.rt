//! Laws of the definitions.
ghost use Rattle.cbm.specs.Gaps.{GapsAreMissingWays};

/// A mask has gaps exactly where it lacks a way between two that it has, which is what a mask of consecutive bits
/// has not (SDM volume 3, "Cache Allocation Technology").
pub fn gaps_are_missing_ways()
    ensures { GapsAreMissingWays }
{}
