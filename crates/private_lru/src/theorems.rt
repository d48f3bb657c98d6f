//! The laws of one slice's list, each proved with an empty body.

ghost use Rattle.private_lru.specs.SliceLaws.{CoveredHits, CoveredHitsAreCounted, SliceHolds, SliceIsolation, TwoWorlds};

/// In a window of one slice, the covered accesses of a group that has its ways for itself hit as in a private cache.
pub fn slice_isolation()
    ensures { SliceIsolation }
{}

/// As long as no access may fill in the ways of a locked region and the slice is not emptied, its lines hit, but for those
/// that were dropped.
pub fn slice_holds()
    ensures { SliceHolds }
{}

/// The covered accesses of an isolated group hit, set by set, as a private cache does that sees the group's uses of lines and
/// all drops of these lines.
pub fn covered_hits()
    ensures lists { CoveredHits }
    ensures counts { CoveredHitsAreCounted }
{}

/// The covered accesses of two isolated groups, in worlds with equal sets and for equally many ways, hit alike where the groups
/// use and lose the same lines: what others did besides makes no difference.
pub fn two_worlds()
    ensures { TwoWorlds }
{}
