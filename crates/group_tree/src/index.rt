//! Indices: the places of the groups in the order of their keys.
ghost use Rattle.group_tree.specs.declared.group.Group.{Group};
ghost use Rattle.std.specs.Prelude.{◌≡◌, ◌<◌, ◌≤◌, List, [], ◌∷◌, length, map, remove, slice_set, false, true, IfOk};
ghost use Rattle.std.specs.List.{HoldsAt, position_or_len};
ghost use Rattle.std.specs.List.Sorted.{IsPartitionPoint};
ghost use Rattle.group_tree.specs.Indices.{AreInOrder, IsIndex, IsIndexBut, lowered, precedes};
ghost use Rattle.group_tree.specs.Keys.{by_directory, is_below, is_key};
ghost use Rattle.group_tree.specs.declared.key.Key.{Key};

use crate::group::Group;
use crate::groups::PLACES;
use crate::key::Key;
use arrayvec::ArrayVec;
use rc_base::NoMemory;
use std::alloc::Global;

/// A group in an index.
#[derive(Clone, Copy, Debug, Default)]
pub(crate) struct Entry {
    /// Its key.
    pub(crate) key: Key,
    /// Its place in the order of creation.
    pub(crate) place: usize,
}

impl Entry {
    // Whether it comes before another: by their keys, and where these are the same, by their places.
    fn precedes(self, other: Entry) -> bool
        ensures { result ≡ precedes self other }
    {
        self.key.is_below(other.key) || self.key.is(other.key) && self.place < other.place
    }

    // The entry once the group at this place is gone: the later ones stand a place lower.
    fn lowered(self, place: usize) -> Entry
        ensures { result ≡ lowered place self }
    {
        Entry {
            key: self.key,
            place: if place < self.place {
                self.place - 1
            } else {
                self.place
            },
        }
    }
}

/// The index of one group.
pub(crate) fn index_of_one(
    alloc: Global,
    key: Key,
) -> Result<Box<ArrayVec<Entry, PLACES>>, NoMemory>
    ensures { IfOk result (λ index. index.value.items ≡ record { key = key; place = 0 } ∷ []) }
{
    let mut index = Box::new(alloc, ArrayVec::new())?;
    index.push(Entry { key, place: 0 });
    Ok(index)
}

// How many entries have a key below this one.
fn count_below(entries: &[Entry], key: Key) -> usize
    ensures within { result ≤ length entries.now }
    ensures parted { AreInOrder entries.now → IsPartitionPoint (λ e. is_below e.key key ≡ true) (λ e. is_below e.key key ≡ false) entries.now result }
{
    entries.partition_point(|e| e.key.is_below(key))
}

// How many entries precede a new one.
fn count_before(entries: &[Entry], new: Entry) -> usize
    ensures within { result ≤ length entries.now }
    ensures parted { AreInOrder entries.now → IsPartitionPoint (λ e. precedes e new ≡ true) (λ e. precedes e new ≡ false) entries.now result }
{
    entries.partition_point(|e| e.precedes(new))
}

/// The place of the first group with this key, and the number of the groups where none has it.
pub(crate) fn first_place(entries: &[Entry], key: Key) -> usize
    ensures { (key_of : Group → Key) (groups : List Group) → IsIndex key_of groups entries.now → result ≡ position_or_len (λ g. is_key key (key_of g)) groups }
{
    let from = count_below(entries, key);
    if from == entries.len() {
        return entries.len();
    }
    let first = entries[from];
    if first.key.is(key) {
        first.place
    } else {
        entries.len()
    }
}

/// Enters the group at the one place whose group has no entry.
pub(crate) fn enter(entries: &mut ArrayVec<Entry, PLACES>, new: Entry)
    requires { length entries.old.items < PLACES }
    ensures { (key_of : Group → Key) (groups : List Group) → IsIndexBut new.place key_of groups entries.old.items → HoldsAt (λ g. key_of g ≡ new.key) groups new.place → IsIndex key_of groups entries.new.items }
{
    let from = count_before(entries.as_slice(), new);
    entries.insert(from, new);
}

// Takes out the entry of the group at this place.
fn strike(entries: &mut ArrayVec<Entry, PLACES>, place: usize)
    ensures { (key_of : Group → Key) (groups : List Group) → IsIndex key_of groups entries.old.items → place < length groups → IsIndexBut place key_of groups entries.new.items }
{
    entries.retain(|e| e.place != place);
}

// Lowers the places after this one.
fn lower(entries: &mut [Entry], place: usize)
    ensures { entries.new ≡ map (lowered place) entries.old }
{
    for k in 0..entries.len() {
        entries[k] = entries[k].lowered(place);
    }
}

/// Takes out the group at this place, which leaves the list of the groups too.
pub(crate) fn leave(entries: &mut ArrayVec<Entry, PLACES>, place: usize)
    ensures { (key_of : Group → Key) (groups : List Group) → IsIndex key_of groups entries.old.items → place < length groups → IsIndex key_of (remove groups place) entries.new.items }
{
    strike(entries, place);
    lower(entries.as_mut_slice(), place);
}

/// Changes the key of the group at this place from that of its directory to that of the record which takes its place.
pub(crate) fn rename(
    entries: &mut ArrayVec<Entry, PLACES>,
    groups: &[Group],
    place: usize,
    new: &Group,
)
    requires index { IsIndex by_directory groups.now entries.old.items }
    requires within { place < length groups.now }
    requires fits { length groups.now ≤ PLACES }
    ensures { IsIndex by_directory (slice_set groups.now place new.now) entries.new.items }
{
    let key = Key::of_directory(new);
    if Key::of_directory(&groups[place]).is(key) {
        return;
    }
    strike(entries, place);
    enter(entries, Entry { key, place });
}
