//! Windows with the counts that were made for them.
ghost use Rattle.std.specs.Prelude.{◌≡◌, ℕ, ◌^◌, ◌<◌, ◌≤◌, ◌∷◌, [], ◌++◌, All, IfOk, OnOk, filter, length, map};
ghost use Rattle.cache_core.specs.declared.entry.What.TheVariants.{Flush as TheFlush};
ghost use Rattle.pair_text.specs.Values.{epoch_at};
ghost use Rattle.pair_windows.specs.DomainWalks.{CanClose, Each, HasFound, HasWalked, IsCountable};
ghost use Rattle.pair_windows.specs.JointCounted.{counted_window, counted_windows, is_used};
ghost use Rattle.pair_windows.specs.LevelSpans.{stay_of};
ghost use Rattle.pair_windows.specs.declared.segments.Hits.{Hits as HitsValue};
ghost use Rattle.private_lru.specs.Ends.{RiseByGroup};
ghost use Rattle.private_lru.specs.Tallies.{AreCounted};

use crate::counted_groups::CountedGroups;
use crate::domain_walks::DomainWalk;
use crate::joint_window::JointWindow;
use crate::level_masks::LevelMasks;
use crate::level_spans::stays_of;
use cache_core::{SliceEntry, What};
use pair_text::PairScript;
use private_lru::{Span, WindowCounts, counts_of};
use rc_base::NoMemory;
use std::alloc::Global;

// The window of a group with its masks, by its counts at both levels. The hits of private caches are not counted anew: they are as
// many as the covered hits.
fn window_of(
    domain: u8,
    from: u32,
    span: Span<LevelMasks>,
    l2: WindowCounts,
    l3: WindowCounts,
) -> JointWindow
    ensures { result ≡ counted_window domain from span l2 l3 }
{
    JointWindow {
        domain,
        gid: span.held.gid,
        from,
        uses: l2.accesses,
        covered: l2.covered,
        l2_hits: l2.covered_hits,
        l2_private: l2.covered_hits,
        l3_accesses: l2.covered.saturating_sub(l2.covered_hits),
        l3_hits: l3.covered_hits,
        l3_private: l3.covered_hits,
    }
}

// Adds a window in which its group uses lines.
fn push_used(windows: &mut Vec<JointWindow>, window: JointWindow) -> Result<(), NoMemory>
    ensures { OnOk result (windows.new.items ≡ windows.old.items ++ filter is_used (window ∷ [])) }
{
    if 0 < window.uses {
        windows.push(window)?;
    }
    Ok(())
}

// Adds the windows of these groups in which their groups use lines.
fn push_counted(
    windows: &mut Vec<JointWindow>,
    domain: u8,
    from: u32,
    groups: &CountedGroups<'_>,
) -> Result<(), NoMemory>
    requires l2 { length groups.now.l2.now ≡ length groups.now.held.now }
    requires l3 { length groups.now.l3.now ≡ length groups.now.held.now }
    ensures { OnOk result (windows.new.items ≡ windows.old.items ++ filter is_used (counted_windows domain from groups.now.held.now groups.now.l2.now groups.now.l3.now)) }
{
    for i in 0..groups.held.len() {
        let window = window_of(domain, from, groups.held[i], groups.l2[i], groups.l3[i]);
        push_used(windows, window)?;
    }
    Ok(())
}

// The counts of the windows of these groups among the entries after a flush.
fn counts_at(
    alloc: Global,
    sets: u32,
    held: &[Span<LevelMasks>],
    entries: &[SliceEntry],
) -> Result<Vec<WindowCounts>, NoMemory>
    requires rising { RiseByGroup (map stay_of held.now) }
    requires few { length entries.now < 2 ^ 32 }
    ensures { IfOk result (λ counts. AreCounted sets TheFlush entries.now (map stay_of held.now) counts.items) }
{
    let stays = stays_of(alloc, held)?;
    counts_of(alloc, &stays, sets, What::Flush, entries)
}

// Adds the windows that begin at a flush to those of a domain, by what stands after the flush. `epoch` is the position of the flush
// among the commands.
fn close(
    alloc: Global,
    walk: &mut DomainWalk,
    script: &PairScript,
    epoch: u32,
) -> Result<(), NoMemory>
    requires countable { IsCountable walk.old }
    ensures { OnOk result ((hits : HitsValue) (from last domain : ℕ) → CanClose script.now from last → domain < script.now.machines.machine.domains → epoch ≡ epoch_at script.now from
        → HasWalked script.now hits from (epoch_at script.now last) last domain walk.old → HasFound script.now hits last domain walk.new) }
{
    let sets = script.machine().sets;
    let part = &walk.segment;
    let l2 = counts_at(alloc, sets, &part.held, &part.l2)?;
    let l3 = counts_at(alloc, sets, &part.held, &part.l3)?;
    let groups = CountedGroups {
        held: &part.held,
        l2: &l2,
        l3: &l3,
    };
    push_counted(&mut walk.windows, walk.domain, epoch, &groups)?;
    Ok(())
}

/// Adds the windows that begin at a flush to those of each domain.
pub(crate) fn close_all(
    alloc: Global,
    walks: &mut [DomainWalk],
    script: &PairScript,
    epoch: u32,
) -> Result<(), NoMemory>
    requires countable { All IsCountable walks.old }
    requires few { length walks.old ≤ script.now.machines.machine.domains }
    ensures { OnOk result ((hits : HitsValue) (from last : ℕ) → CanClose script.now from last → epoch ≡ epoch_at script.now from
        → Each (HasWalked script.now hits from (epoch_at script.now last) last) walks.old → Each (HasFound script.now hits last) walks.new) }
{
    for walk in walks {
        close(alloc, walk, script, epoch)?;
    }
    Ok(())
}
