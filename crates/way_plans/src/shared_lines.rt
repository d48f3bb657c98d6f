//! The lines that several groups used in a slice, and those that were dropped.
ghost use Rattle.std.specs.Prelude.{◌≡◌, ◌+◌, ◌^◌, ◌<◌, ◌≤◌, length};
ghost use Rattle.way_plans.specs.Comparisons.{is_of, shared_among, shared_in, shared_item};
ghost use Rattle.way_plans.specs.Noted.{AddsItems};

use crate::items::note_item;
use crate::slice_lines::behind_emptied;
use cache_core::{SliceEntry, What};
use group_tree::Group;
use private_lru::Item;
use rc_base::Gid;
use way_curve::Curve;

/// Whether one of the groups has this gid.
pub(crate) fn is_of(groups: &[Group], gid: Gid) -> bool
    ensures { result ≡ is_of groups.now gid.0 }
{
    groups.iter().any(|group| group.gid.0 == gid.0)
}

// What an entry is to a private cache of all groups.
fn shared_item(what: What, groups: &[Group]) -> Option<Item>
    ensures { result ≡ shared_item groups.now what }
{
    match what {
        What::Access { owner, line, .. } if is_of(groups, owner) => Some(Item::Use { line }),
        What::Drop { line, .. } => Some(Item::Drop { line }),
        _ => None,
    }
}

// Notes the groups' items among these entries.
fn note_among(curve: &mut Curve, entries: &[SliceEntry], groups: &[Group])
    requires room { curve.old.uses + length entries.now < 2 ^ 64 }
    ensures sets { curve.new.sets ≡ curve.old.sets }
    ensures few { curve.new.uses ≤ curve.old.uses + length entries.now }
    ensures items { AddsItems curve.old curve.new (shared_among groups.now entries.now) }
{
    for entry in entries {
        if let Some(item) = shared_item(entry.what, groups) {
            note_item(curve, item);
        }
    }
}

/// Notes the lines that the groups used in a slice since it was last emptied, and those that were dropped, in order.
pub(crate) fn note_shared(curve: &mut Curve, entries: &[SliceEntry], groups: &[Group])
    requires room { curve.old.uses + length entries.now < 2 ^ 64 }
    ensures sets { curve.new.sets ≡ curve.old.sets }
    ensures few { curve.new.uses ≤ curve.old.uses + length entries.now }
    ensures items { AddsItems curve.old curve.new (shared_in groups.now entries.now) }
{
    note_among(curve, &entries[behind_emptied(entries)..], groups);
}
