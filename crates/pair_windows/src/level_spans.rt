//! The masks of exclusive groups, and how long they keep them.
ghost use Rattle.std.specs.Prelude.{◌≡◌, ◌<◌, ◌∷◌, [], ◌++◌, ◌==◌, ◌||◌, not, IfOk, OnOk, filter, find, map, slice_index, false};
ghost use Rattle.std.specs.List.{list_all, range_with_len};
ghost use Rattle.std.specs.Option.{option_copied};
ghost use Rattle.pair_windows.specs.LevelSpans.{exclusive_in, goes_on, has_same, is_exclusive, masks_of, stay_of};
ghost use Rattle.pair_law.specs.State.{has_gid};
ghost use Rattle.pair_text.specs.Values.{AreMachines, side_machine};
ghost use Rattle.pair_text.specs.declared.side.Side.TheVariants.{First};
ghost use Rattle.pair_law.specs.JointWindows.{domain_above};
ghost use Rattle.private_lru.specs.Keeping.{span_to};

use crate::domains::{domain_above, l2_domains};
use crate::level_masks::LevelMasks;
use pair_text::{PairGroup, PairScript};
use pair_tree::PairTree;
use private_lru::{ExclusiveSpan, HoldsAt, Span};
use rc_base::{Gid, Mode, NoMemory};
use std::alloc::Global;

/// An L3 domain of a script at an epoch, at which groups keep their masks there, and in the L2 domains that lie in it, or not.
#[derive(Drop)]
pub(crate) struct LevelState<'a> {
    /// The script.
    pub script: &'a PairScript,
    /// The tree of that epoch.
    pub tree: &'a PairTree,
    /// The L3 domain.
    pub domain: u8,
}

// Whether a group is exclusive.
fn is_exclusive(group: &PairGroup) -> bool
    ensures { result ≡ is_exclusive group.now }
{
    matches!(group.mode, Mode::Exclusive)
}

// The first exclusive group.
fn first_exclusive(groups: &[PairGroup]) -> Option<&PairGroup>
    ensures { option_copied result ≡ find is_exclusive groups.now }
{
    groups.iter().find(|group| is_exclusive(group))
}

/// Whether a group of a tree is exclusive.
pub(crate) fn has_exclusive(tree: &PairTree) -> bool
    ensures { result ≡ false → exclusive_in tree.now.state ≡ [] }
{
    match first_exclusive(tree.groups()) {
        Some(_) => true,
        None => false,
    }
}

// Adds a group, where it is exclusive.
fn push_group(
    held: &mut Vec<Span<LevelMasks>>,
    group: &PairGroup,
    domain: u8,
    epoch: u64,
) -> Result<(), NoMemory>
    requires { domain < 8 }
    ensures { OnOk result (held.new.items ≡ held.old.items ++ map (λ g. span_to epoch (masks_of domain g)) (filter is_exclusive (group.now ∷ []))) }
{
    if !is_exclusive(group) {
        return Ok(());
    }
    let first = group.first;
    held.push(Span {
        held: LevelMasks {
            gid: group.gid,
            first,
            second: group.second[usize::from(domain)],
        },
        last: epoch,
    })?;
    Ok(())
}

/// The masks of the exclusive groups of a tree in an L3 domain, each kept up to this epoch.
pub(crate) fn level_spans(
    alloc: Global,
    tree: &PairTree,
    domain: u8,
    epoch: u64,
) -> Result<Vec<Span<LevelMasks>>, NoMemory>
    requires { domain < 8 }
    ensures { IfOk result (λ held. held.items ≡ map (λ g. span_to epoch (masks_of domain g)) (exclusive_in tree.now.state)) }
{
    let mut held: Vec<Span<LevelMasks>> = Vec::new(alloc);
    for group in tree.groups() {
        push_group(&mut held, group, domain, epoch)?;
    }
    Ok(held)
}

// Whether an L2 domain lies in another L3 domain, or two groups have the same mask there.
fn is_same_in(script: &PairScript, first: &[u32; 8], held: &[u32; 8], domain: u8, x: u8) -> bool
    requires machines { AreMachines script.now.machines }
    requires x { x < 8 }
    ensures { result ≡ (not (domain_above script.now.machines x == domain) || (slice_index first.now x == slice_index held.now x)) }
{
    domain_above(script, x) != domain || first[usize::from(x)] == held[usize::from(x)]
}

// Whether two groups have the same masks in the L2 domains that lie in an L3 domain.
fn is_same_below(script: &PairScript, first: &[u32; 8], held: &[u32; 8], domain: u8) -> bool
    requires { AreMachines script.now.machines }
    ensures { result ≡ list_all (λ x. not (domain_above script.now.machines x == domain) || (slice_index first.now x == slice_index held.now x)) (range_with_len 0 (side_machine script.now.machines First).domains) }
{
    let mut same = true;
    for x in 0..l2_domains(script) {
        same = same && is_same_in(script, first, held, domain, x);
    }
    same
}

// Whether a group is exclusive and has these masks.
fn has_same(script: &PairScript, domain: u8, held: &LevelMasks, group: &PairGroup) -> bool
    requires machines { AreMachines script.now.machines }
    requires domain { domain < 8 }
    ensures { result ≡ has_same script.now.machines domain held.now group.now }
{
    is_exclusive(group)
        && group.second[usize::from(domain)] == held.second
        && is_same_below(script, &group.first, &held.first, domain)
}

// The group with this serial number.
fn group_of(groups: &[PairGroup], gid: Gid) -> Option<&PairGroup>
    ensures { option_copied result ≡ find (has_gid gid) groups.now }
{
    groups.iter().find(|group| gid.0 == group.gid.0)
}

impl<'a> HoldsAt<LevelMasks> for LevelState<'a> {
    ghost CanTell = { λ s. AreMachines s.script.now.machines × (s.domain < 8) };

    ghost holds = { λ s held. goes_on s.script.now.machines s.domain held s.tree.now.state };

    fn holds(&self, held: &LevelMasks) -> bool {
        match group_of(self.tree.groups(), held.gid) {
            Some(group) => has_same(self.script, self.domain, held, group),
            None => false,
        }
    }
}

/// Masks of groups, as the counts of windows know them.
pub(crate) fn stays_of(
    alloc: Global,
    held: &[Span<LevelMasks>],
) -> Result<Vec<ExclusiveSpan>, NoMemory>
    ensures { IfOk result (λ stays. stays.items ≡ map stay_of held.now) }
{
    let mut stays: Vec<ExclusiveSpan> = Vec::new(alloc);
    for span in held {
        stays.push(ExclusiveSpan {
            last: span.last,
            gid: span.held.gid,
            mask: span.held.second,
        })?;
    }
    Ok(stays)
}
