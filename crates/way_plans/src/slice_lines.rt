//! The lines that a group used in a slice, and those that were dropped.
ghost use Rattle.std.specs.Prelude.{◌≡◌, ℕ, ◌+◌, ◌^◌, ◌<◌, ◌≤◌, List, drop, length};
ghost use Rattle.cache_core.specs.Filled.{empties};
ghost use Rattle.way_plans.specs.GroupItems.{item_of, items_among, items_in, since_emptied};
ghost use Rattle.way_plans.specs.Noted.{AddsItems};

use crate::items::note_item;
use cache_core::{SliceEntry, What};
use private_lru::Item;
use rc_base::Gid;
use way_curve::Curve;

// Whether this empties the slice.
fn empties(what: What) -> bool
    ensures { result ≡ empties what }
{
    matches!(what, What::Flush | What::Lock { .. })
}

/// Behind the last entry that empties the slice.
pub(crate) fn behind_emptied(entries: &[SliceEntry]) -> usize
    ensures within { result ≤ length entries.now }
    ensures rest { drop result entries.now ≡ since_emptied entries.now }
{
    let mut from = entries.len();
    while from > 0 && !empties(entries[from - 1].what) {
        from -= 1;
    }
    from
}

// What an entry is to a private cache of the group.
fn item_of(what: What, gid: Gid) -> Option<Item>
    ensures { result ≡ item_of gid.0 what }
{
    match what {
        What::Access { owner, line, .. } if owner == gid => Some(Item::Use { line }),
        What::Drop { line, .. } => Some(Item::Drop { line }),
        _ => None,
    }
}

// Notes the group's items among these entries.
fn note_among(curve: &mut Curve, entries: &[SliceEntry], gid: Gid)
    requires room { curve.old.uses + length entries.now < 2 ^ 64 }
    ensures sets { curve.new.sets ≡ curve.old.sets }
    ensures few { curve.new.uses ≤ curve.old.uses + length entries.now }
    ensures items { AddsItems curve.old curve.new (items_among gid.0 entries.now) }
{
    for entry in entries {
        if let Some(item) = item_of(entry.what, gid) {
            note_item(curve, item);
        }
    }
}

/// Notes the lines that the group used in a slice since it was last emptied, and those that were dropped.
pub(crate) fn note_slice(curve: &mut Curve, entries: &[SliceEntry], gid: Gid)
    requires room { curve.old.uses + length entries.now < 2 ^ 64 }
    ensures sets { curve.new.sets ≡ curve.old.sets }
    ensures few { curve.new.uses ≤ curve.old.uses + length entries.now }
    ensures items { AddsItems curve.old curve.new (items_in gid.0 entries.now) }
{
    note_among(curve, &entries[behind_emptied(entries)..], gid);
}
