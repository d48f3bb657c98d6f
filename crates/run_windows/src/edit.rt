//! What makes the exclusive groups before a change of those after it.
ghost use Rattle.std.specs.Prelude.{◌≡◌, ◌≤◌, IfOk, OnOk, Some, find, length, slice_get};
ghost use Rattle.std.specs.List.{insert};
ghost use Rattle.run_windows.specs.OneGroup.{AreInOrder, before, joined, others, own_of, place_in, with_new, with_other};

use crate::exclusive_group::{ExclusiveGroup, are_same};
use crate::places::{insert, put, remove};
use rc_base::{Gid, NoMemory};

/// What makes one list of groups of another.
#[derive(Drop)]
pub(crate) enum Edit {
    /// The list is this one.
    Whole(Vec<ExclusiveGroup>),
    /// This group stands in place of the one there.
    Put(usize, ExclusiveGroup),
    /// This group comes in there.
    Insert(usize, ExclusiveGroup),
    /// The group there goes.
    Remove(usize),
}

// The place of a group in order of creation: how many of these are older.
fn place_in(groups: &[ExclusiveGroup], gid: Gid) -> usize
    requires { AreInOrder groups.now }
    ensures place { result ≡ place_in gid groups.now }
    ensures within { result ≤ length groups.now }
{
    groups.partition_point(|group| group.gid.0 < gid.0)
}

// The record at a place, where it is of this group.
fn own_at(groups: &[ExclusiveGroup], at: usize, gid: Gid) -> Option<ExclusiveGroup>
    ensures { result ≡ own_of gid (slice_get groups.now at) }
{
    match groups.get(at) {
        Some(group) => {
            if gid.0 == group.gid.0 {
                Some(*group)
            } else {
                None
            }
        }
        None => None,
    }
}

// Puts a record in place of the one there, and answers what undoes that.
fn put_other(
    groups: &mut Vec<ExclusiveGroup>,
    at: usize,
    old: ExclusiveGroup,
    now: ExclusiveGroup,
) -> Option<Edit>
    requires there { slice_get groups.old.items at ≡ Some old }
    ensures now { groups.new.items ≡ with_other at (Some now) groups.old.items }
    ensures before { before result groups.new.items ≡ groups.old.items }
{
    if are_same(&old, &now) {
        return None;
    }
    put(groups, at, now);
    Some(Edit::Put(at, old))
}

// Makes a group that was exclusive what it is now, and answers what undoes that.
fn edit_old(
    groups: &mut Vec<ExclusiveGroup>,
    at: usize,
    old: ExclusiveGroup,
    now: Option<ExclusiveGroup>,
) -> Option<Edit>
    requires there { slice_get groups.old.items at ≡ Some old }
    ensures now { groups.new.items ≡ with_other at now groups.old.items }
    ensures before { before result groups.new.items ≡ groups.old.items }
{
    match now {
        Some(now) => put_other(groups, at, old, now),
        None => {
            remove(groups, at);
            Some(Edit::Insert(at, old))
        }
    }
}

// Adds a group that was not exclusive, where it is now, and answers what undoes that.
fn edit_new(
    groups: &mut Vec<ExclusiveGroup>,
    at: usize,
    now: Option<ExclusiveGroup>,
) -> Result<Option<Edit>, NoMemory>
    requires within { at ≤ length groups.old.items }
    ensures now { OnOk result (groups.new.items ≡ with_new at now groups.old.items) }
    ensures before { IfOk result (λ e. before e groups.new.items ≡ groups.old.items) }
{
    match now {
        Some(now) => {
            insert(groups, at, now)?;
            Ok(Some(Edit::Remove(at)))
        }
        None => Ok(None),
    }
}

/// Makes one of the exclusive groups what it is now, and answers what undoes that, where it was otherwise.
pub(crate) fn edit_one(
    groups: &mut Vec<ExclusiveGroup>,
    gid: Gid,
    now: Option<ExclusiveGroup>,
) -> Result<Option<Edit>, NoMemory>
    requires { AreInOrder groups.old.items }
    ensures now { OnOk result (groups.new.items ≡ joined gid now (others gid groups.old.items)) }
    ensures before { IfOk result (λ e. before e groups.new.items ≡ groups.old.items) }
{
    let at = place_in(groups, gid);
    match own_at(groups, at, gid) {
        Some(old) => Ok(edit_old(groups, at, old, now)),
        None => edit_new(groups, at, now),
    }
}
