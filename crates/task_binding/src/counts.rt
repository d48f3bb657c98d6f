//! How many tasks each group has.
ghost use Rattle.std.specs.Prelude.{◌≡◌, ◌+◌, ◌<◌, ◌^◌, IfOk, IfErr, vec_capacity, nat_lt};
ghost use Rattle.task_binding.specs.GroupCounts.{IsCountAt, IsGapFor, IsTable, count_in, count_in_all, one_for, opening_counts};

use rc_base::Gid;
use std::alloc::{AllocError, Global};

/// A group that has tasks.
#[derive(Clone, Copy)]
pub struct GroupCount {
    /// The group.
    pub group: Gid,
    /// How many tasks it has.
    pub tasks: usize,
}

/// The counts of so many tasks in the default group, with room for as many groups and one more.
pub(crate) fn opening_counts(alloc: Global, tasks: usize) -> Result<Vec<GroupCount>, AllocError>
    requires { tasks < 2 ^ 63 }
    ensures counts { IfOk result (λ counts. counts.items ≡ opening_counts tasks) }
    ensures room { IfOk result (λ counts. vec_capacity counts ≡ tasks + 1) }
{
    let mut counts = Vec::with_capacity(alloc, tasks + 1)?;
    if 0 < tasks {
        counts.push_reserved(GroupCount {
            group: Gid::DEFAULT,
            tasks,
        });
    }
    Ok(counts)
}

/// Whether a group has tasks.
pub(crate) fn has_tasks(counts: &[GroupCount], group: Gid) -> bool
    requires { IsTable counts.now }
    ensures { result ≡ nat_lt 0 (count_in group counts.now) }
{
    match search(counts, group) {
        Ok(_) => true,
        Err(_) => false,
    }
}

/// Counts a task in another group than before.
pub(crate) fn recount(counts: &mut Vec<GroupCount>, from: Gid, to: Gid)
    requires table { IsTable counts.old.items }
    requires some { 0 < count_in from counts.old.items }
    requires room { count_in_all counts.old.items < vec_capacity counts.old }
    ensures table { IsTable counts.new.items }
    ensures each { (group : Gid) → count_in group counts.new.items + one_for from group ≡ count_in group counts.old.items + one_for to group }
    ensures all { count_in_all counts.new.items ≡ count_in_all counts.old.items }
    ensures capacity { vec_capacity counts.new ≡ vec_capacity counts.old }
{
    lower(counts, from);
    raise(counts, to);
}

// Counts a task less in a group.
fn lower(counts: &mut Vec<GroupCount>, group: Gid)
    requires table { IsTable counts.old.items }
    requires some { 0 < count_in group counts.old.items }
    ensures table { IsTable counts.new.items }
    ensures each { (other : Gid) → count_in other counts.new.items + one_for group other ≡ count_in other counts.old.items }
    ensures all { count_in_all counts.new.items + 1 ≡ count_in_all counts.old.items }
    ensures capacity { vec_capacity counts.new ≡ vec_capacity counts.old }
{
    match search(counts, group) {
        Ok(place) => lower_at(counts, place, group),
        Err(_) => unreachable!(),
    }
}

// Counts a task less in the group at a place.
fn lower_at(counts: &mut Vec<GroupCount>, place: usize, group: Gid)
    requires table { IsTable counts.old.items }
    requires there { IsCountAt counts.old.items group place }
    ensures table { IsTable counts.new.items }
    ensures each { (other : Gid) → count_in other counts.new.items + one_for group other ≡ count_in other counts.old.items }
    ensures all { count_in_all counts.new.items + 1 ≡ count_in_all counts.old.items }
    ensures capacity { vec_capacity counts.new ≡ vec_capacity counts.old }
{
    let tasks = counts[place].tasks;
    if tasks == 1 {
        let _ = counts.remove(place);
    } else {
        counts[place] = GroupCount {
            group,
            tasks: tasks - 1,
        };
    }
}

// Counts a task more in a group.
fn raise(counts: &mut Vec<GroupCount>, group: Gid)
    requires table { IsTable counts.old.items }
    requires room { count_in_all counts.old.items + 1 < vec_capacity counts.old }
    ensures table { IsTable counts.new.items }
    ensures each { (other : Gid) → count_in other counts.new.items ≡ count_in other counts.old.items + one_for group other }
    ensures all { count_in_all counts.new.items ≡ count_in_all counts.old.items + 1 }
    ensures capacity { vec_capacity counts.new ≡ vec_capacity counts.old }
{
    match search(counts, group) {
        Ok(place) => raise_at(counts, place, group),
        Err(place) => insert_at(counts, place, group),
    }
}

// Counts a task more in the group at a place.
fn raise_at(counts: &mut Vec<GroupCount>, place: usize, group: Gid)
    requires table { IsTable counts.old.items }
    requires there { IsCountAt counts.old.items group place }
    requires room { count_in_all counts.old.items + 1 < vec_capacity counts.old }
    ensures table { IsTable counts.new.items }
    ensures each { (other : Gid) → count_in other counts.new.items ≡ count_in other counts.old.items + one_for group other }
    ensures all { count_in_all counts.new.items ≡ count_in_all counts.old.items + 1 }
    ensures capacity { vec_capacity counts.new ≡ vec_capacity counts.old }
{
    let tasks = counts[place].tasks;
    counts[place] = GroupCount {
        group,
        tasks: tasks + 1,
    };
}

// Counts the first task of a group.
fn insert_at(counts: &mut Vec<GroupCount>, place: usize, group: Gid)
    requires table { IsTable counts.old.items }
    requires gap { IsGapFor counts.old.items group place }
    requires room { count_in_all counts.old.items + 1 < vec_capacity counts.old }
    ensures table { IsTable counts.new.items }
    ensures each { (other : Gid) → count_in other counts.new.items ≡ count_in other counts.old.items + one_for group other }
    ensures all { count_in_all counts.new.items ≡ count_in_all counts.old.items + 1 }
    ensures capacity { vec_capacity counts.new ≡ vec_capacity counts.old }
{
    match counts.insert(place, GroupCount { group, tasks: 1 }) {
        Ok(()) => (),
        Err(_) => unreachable!(),
    }
}

// Where a group's count stands, or where it would.
fn search(counts: &[GroupCount], group: Gid) -> Result<usize, usize>
    requires { IsTable counts.now }
    ensures found { IfOk result (IsCountAt counts.now group) }
    ensures absent { IfErr result (IsGapFor counts.now group) }
{
    counts.binary_search_by_key(&group.0, |c| c.group.0)
}
