//! Partitions, and how long they are kept.
ghost use Rattle.std.specs.Prelude.{◌≡◌, ◌+◌, ◌*◌, ◌<◌, ◌^◌, ◌∷◌, [], ◌++◌, All, IfOk, OnOk, false, filter, find, map};
ghost use Rattle.std.specs.Option.{option_copied, option_map_or};
ghost use Rattle.pair_law.specs.State.{has_gid, mask_in};
ghost use Rattle.pair_law.specs.CdpRuns.{owner_on};
ghost use Rattle.pair_law.specs.CdpWindows.{other_side};
ghost use Rattle.pair_windows.specs.PartitionSpans.{stay_of};
ghost use Rattle.pair_windows.specs.Partitions.{has_partition, is_alone_on, is_kept, partition_of, partitions_in, partitions_of};
ghost use Rattle.pair_windows.specs.declared.partition.Partition.{Partition as PartitionValue};
ghost use Rattle.private_lru.specs.Keeping.{span_to};
ghost use Rattle.private_lru.specs.declared.span.Span.{Span as SpanValue};

use crate::partition::Partition;
use pair_text::{PairGroup, Side};
use pair_tree::PairTree;
use private_lru::{ExclusiveSpan, HoldsAt, Span};
use rc_base::{Gid, Mode, NoMemory};
use std::alloc::Global;

/// The groups of an epoch, as partitions of a domain are kept in it or not.
#[derive(Drop)]
pub(crate) struct DomainState<'a> {
    /// The tree of that epoch.
    pub tree: &'a PairTree,
    /// The domain.
    pub domain: u8,
}

// The mask of a group on a side in a domain.
fn mask_in(group: &PairGroup, side: Side, domain: u8) -> u32
    requires { domain < 8 }
    ensures { result ≡ mask_in side domain group.now }
{
    match side {
        Side::First => group.first[domain as usize],
        Side::Second => group.second[domain as usize],
    }
}

// The other side.
fn other_side(side: Side) -> Side
    ensures { result ≡ other_side side }
{
    match side {
        Side::First => Side::Second,
        Side::Second => Side::First,
    }
}

// Whether a group is exclusive, with this mask on a side of a domain, and its mask on the other side there does not meet it.
fn is_alone_on(group: &PairGroup, side: Side, domain: u8, mask: u32) -> bool
    requires { domain < 8 }
    ensures { result ≡ is_alone_on domain side mask group.now }
{
    matches!(group.mode, Mode::Exclusive)
        && mask_in(group, side, domain) == mask
        && !cbm::overlaps(mask, mask_in(group, other_side(side), domain))
}

// Adds the partition of a side of a group, where it has one.
fn push_side(
    kept: &mut Vec<Span<Partition>>,
    group: &PairGroup,
    side: Side,
    domain: u8,
    epoch: u64,
) -> Result<(), NoMemory>
    requires { domain < 8 }
    ensures { OnOk result (kept.new.items ≡ kept.old.items ++ map (span_to epoch) (map (partition_of domain group.now) (filter (has_partition domain group.now) (side ∷ [])))) }
{
    let mask = mask_in(group, side, domain);
    if !is_alone_on(group, side, domain, mask) {
        return Ok(());
    }
    kept.push(Span {
        held: Partition {
            gid: group.gid,
            side,
            mask,
        },
        last: epoch,
    })?;
    Ok(())
}

// Adds the partitions of a group.
fn push_group(
    kept: &mut Vec<Span<Partition>>,
    group: &PairGroup,
    domain: u8,
    epoch: u64,
) -> Result<(), NoMemory>
    requires { domain < 8 }
    ensures { OnOk result (kept.new.items ≡ kept.old.items ++ map (span_to epoch) (partitions_of domain group.now)) }
{
    push_side(kept, group, Side::First, domain, epoch)?;
    push_side(kept, group, Side::Second, domain, epoch)
}

/// The partitions of a domain, each kept up to this epoch.
pub(crate) fn partitions(
    alloc: Global,
    tree: &PairTree,
    domain: u8,
    epoch: u64,
) -> Result<Vec<Span<Partition>>, NoMemory>
    requires { domain < 8 }
    ensures { IfOk result (λ kept. kept.items ≡ map (span_to epoch) (partitions_in domain tree.now.state)) }
{
    let mut kept: Vec<Span<Partition>> = Vec::new(alloc);
    for group in tree.groups() {
        push_group(&mut kept, group, domain, epoch)?;
    }
    Ok(kept)
}

// The group with this serial number.
fn group_of(groups: &[PairGroup], gid: Gid) -> Option<&PairGroup>
    ensures { option_copied result ≡ find (has_gid gid) groups.now }
{
    groups.iter().find(|group| gid.0 == group.gid.0)
}

impl<'a> HoldsAt<Partition> for DomainState<'a> {
    ghost CanTell = { λ s. s.domain < 8 };

    ghost holds = { λ s p. is_kept s.domain p s.tree.now.state };

    fn holds(&self, p: &Partition) -> bool {
        match group_of(self.tree.groups(), p.gid) {
            Some(group) => is_alone_on(group, p.side, self.domain, p.mask),
            None => false,
        }
    }
}

// The owner that stands for a side of a group in the entries: twice the group's number for data, and one more for code.
fn owner_on(gid: Gid, side: Side) -> Gid
    requires { gid.0 < 2 ^ 31 }
    ensures { result ≡ owner_on gid side }
{
    match side {
        Side::First => Gid(2 * gid.0),
        Side::Second => Gid(2 * gid.0 + 1),
    }
}

// A partition, as the counts of windows know it.
fn stay_of(span: Span<Partition>) -> ExclusiveSpan
    requires { span.held.gid.0 < 2 ^ 31 }
    ensures { result ≡ stay_of span }
{
    let Partition { gid, side, mask } = span.held;
    ExclusiveSpan {
        last: span.last,
        gid: owner_on(gid, side),
        mask,
    }
}

/// Partitions, as the counts of windows know them.
pub(crate) fn stays_of(
    alloc: Global,
    kept: &[Span<Partition>],
) -> Result<Vec<ExclusiveSpan>, NoMemory>
    requires { All (λ (s : SpanValue PartitionValue). s.held.gid.0 < 2 ^ 31) kept.now }
    ensures { IfOk result (λ stays. stays.items ≡ map stay_of kept.now) }
{
    let mut stays: Vec<ExclusiveSpan> = Vec::new(alloc);
    for span in kept {
        stays.push(stay_of(*span))?;
    }
    Ok(stays)
}
