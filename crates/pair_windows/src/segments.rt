//! What stands between a flush and the next one.
ghost use Rattle.std.specs.Prelude.{◌≡◌, ◌<◌, ◌∷◌, [], ◌++◌, ◌&&◌, not, OnOk, Some, false, length, slice_index_or};
ghost use Rattle.cache_core.specs.declared.entry.What.TheVariants.{Access as AnAccess};
ghost use Rattle.pair_windows.specs.Joined.{joined_at};
ghost use Rattle.pair_windows.specs.Segments.{CanWalk, hit_l2, hit_l3, is_end};
ghost use Rattle.pair_text.specs.Values.{op_at};
ghost use Rattle.pair_windows.specs.Replays.{HasTaken};
ghost use Rattle.pair_law.specs.Entries.{entry};
ghost use Rattle.pair_law.specs.JointWindows.{is_flush};

use crate::Replay;
use crate::level_masks::LevelMasks;
use crate::line_uses::{LineUse, next_use, push_entry};
use cache_core::SliceEntry;
use pair_text::{PairOp, PairScript};
use private_lru::Span;
use rc_base::NoMemory;

/// For each op whether it is a use that hit, at each level.
#[derive(Drop)]
pub(crate) struct Hits {
    /// In the L2.
    pub l2: Vec<bool>,
    /// In the L3.
    pub l3: Vec<bool>,
}

/// What stands between a flush and the next one: the groups that are exclusive after the flush, and the uses on the CPUs of an L3
/// domain, where they hit by their L2 entries, and by their L3 entries.
#[derive(Drop)]
pub(crate) struct Segment {
    /// The groups.
    pub held: Vec<Span<LevelMasks>>,
    /// The uses, as they hit by their L2 entries.
    pub l2: Vec<SliceEntry>,
    /// The uses, as they hit by their L3 entries.
    pub l3: Vec<SliceEntry>,
}

// Whether an op is a flush.
fn is_flush(op: &PairOp) -> bool
    ensures { result ≡ is_flush (Some op.now) }
{
    matches!(op, PairOp::Flush)
}

/// Whether a segment ends at a place: a flush stands there, or nothing.
pub(crate) fn is_end(script: &PairScript, place: usize) -> bool
    ensures { result ≡ is_end (op_at script.now place) }
{
    match script.ops().get(place) {
        Some(op) => is_flush(op),
        None => true,
    }
}

// Whether a use hit the L3, of which it is asked where it missed the L2.
fn hit_l3(hits: &Hits, place: usize) -> bool
    requires l2 { place < length hits.now.l2.items }
    requires l3 { place < length hits.now.l3.items }
    ensures { result ≡ (not (slice_index_or hits.now.l2.items place false) && slice_index_or hits.now.l3.items place false) }
{
    !hits.l2[place] && hits.l3[place]
}

// Adds a use to both lists.
fn push_use(
    segment: &mut Segment,
    hits: &Hits,
    u: LineUse,
    op: u32,
    epoch: u64,
) -> Result<(), NoMemory>
    requires l2 { op < length hits.now.l2.items }
    requires l3 { op < length hits.now.l3.items }
    ensures held { OnOk result (segment.new.held.items ≡ segment.old.held.items) }
    ensures l2 { OnOk result (segment.new.l2.items ≡ segment.old.l2.items ++ entry op epoch (AnAccess (slice_index_or hits.now.l2.items op false) 0 u.owner 0 0 u.line) ∷ []) }
    ensures l3 { OnOk result (segment.new.l3.items ≡ segment.old.l3.items
        ++ entry op epoch (AnAccess (not (slice_index_or hits.now.l2.items op false) && slice_index_or hits.now.l3.items op false) 0 u.owner 0 0 u.line) ∷ []) }
{
    let place = op as usize;
    push_entry(&mut segment.l2, u, op, epoch, hits.l2[place])?;
    push_entry(&mut segment.l3, u, op, epoch, hit_l3(hits, place))?;
    Ok(())
}

/// Adds the next op, which is no flush, to both lists, where it is a use on a CPU of the domain.
pub(crate) fn push_op(
    segment: &mut Segment,
    script: &PairScript,
    domain: u8,
    hits: &Hits,
    replay: &Replay,
) -> Result<(), NoMemory>
    requires walk { CanWalk script.now hits.now }
    requires taken { HasTaken script.now replay.now }
    requires within { replay.now.place < length script.now.ops }
    requires quiet { is_flush (op_at script.now replay.now.place) ≡ false }
    ensures held { OnOk result (segment.new.held.items ≡ segment.old.held.items) }
    ensures l2 { OnOk result (segment.new.l2.items ≡ segment.old.l2.items ++ joined_at script.now domain (hit_l2 hits.now.l2.items) replay.now.place) }
    ensures l3 { OnOk result (segment.new.l3.items ≡ segment.old.l3.items ++ joined_at script.now domain (hit_l3 hits.now.l2.items hits.now.l3.items) replay.now.place) }
{
    match next_use(script, domain, replay) {
        Some(u) => push_use(segment, hits, u, replay.place() as u32, replay.epoch()),
        None => Ok(()),
    }
}
