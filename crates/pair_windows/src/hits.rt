//! Which uses of a script hit at a level.
ghost use Rattle.std.specs.Prelude.{◌≡◌, ◌<◌, [], ◌∷◌, IfOk, length, map};
ghost use Rattle.pair_windows.specs.Hits.{AreHits, AreMarked, is_use_in};
ghost use Rattle.pair_text.specs.Values.{IsLawful, op_at, side_machine};
ghost use Rattle.pair_law.specs.LevelRuns.{is_hit};
ghost use Rattle.run_law.specs.Entries.{entries_of};

use crate::domains::machine_on;
use cache_core::{SliceEntry, What};
use pair_text::{PairOp, PairScript, Side};
use rc_base::NoMemory;
use std::alloc::Global;

// Whether the op at a place is a use on a CPU of a domain of a level.
fn is_use_in(script: &PairScript, side: Side, domain: usize, place: usize) -> bool
    requires lawful { IsLawful script.now }
    requires within { place < length script.now.ops }
    ensures { result ≡ is_use_in script.now side domain (op_at script.now place) }
{
    let op = &script.ops()[place];
    let caches = machine_on(script, side);
    match op {
        PairOp::Use { cpu, .. } => usize::from(caches.domain_of(*cpu)) == domain,
        _ => false,
    }
}

// Whether an entry is an access that hit.
fn is_hit(what: &What) -> bool
    ensures { result ≡ is_hit what.now }
{
    match what {
        What::Access { hit, .. } => *hit,
        _ => false,
    }
}

// Marks the op of an entry of a domain's cache, where the entry is a hit of a use on a CPU of the domain.
fn mark(script: &PairScript, side: Side, domain: usize, entry: &SliceEntry, hits: &mut [bool])
    requires lawful { IsLawful script.now }
    requires all { length hits.old ≡ length script.now.ops }
    ensures { AreMarked script.now side domain (entry.now ∷ []) hits.old hits.new }
{
    let place = entry.op as usize;
    if is_hit(&entry.what) && place < hits.len() && is_use_in(script, side, domain, place) {
        hits[place] = true;
    }
}

// Marks the ops of the entries of a domain's cache that are hits of uses on the domain's CPUs.
fn mark_all(
    script: &PairScript,
    side: Side,
    domain: usize,
    entries: &[SliceEntry],
    hits: &mut [bool],
)
    requires lawful { IsLawful script.now }
    requires all { length hits.old ≡ length script.now.ops }
    ensures { AreMarked script.now side domain entries.now hits.old hits.new }
{
    for entry in entries {
        mark(script, side, domain, entry, hits);
    }
}

/// For each op of a script whether it is a use whose entry at a level is a hit.
///
/// It takes time by how many entries there are.
pub(crate) fn hits_on(
    alloc: Global,
    script: &PairScript,
    side: Side,
    slices: &[Vec<SliceEntry>],
) -> Result<Vec<bool>, NoMemory>
    requires lawful { IsLawful script.now }
    requires one_each { length slices.now ≡ (side_machine script.now.machines side).domains }
    ensures { IfOk result (λ hits. AreHits script.now side (map entries_of slices.now) hits.items) }
{
    let mut hits: Vec<bool> = vec![in alloc; false; script.ops().len()]?;
    for (domain, entries) in slices.iter().enumerate() {
        mark_all(script, side, domain, entries, &mut hits);
    }
    Ok(hits)
}
