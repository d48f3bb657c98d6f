//! All groups of the tree.
ghost use Rattle.std.specs.Prelude.{◌≡◌, ◌<◌, ◌≤◌, ◌≢◌, ◌∷◌, [], ◌++◌, length, find, is_some, nat_lt, IfOk, IsTrue, slice_get, false, true};
ghost use Rattle.std.specs.List.{list_any};
ghost use Rattle.std.specs.Option.{option_copied, option_map};
ghost use Rattle.group_tree.specs.Lists.{IsTree, has_group, replaced, without};
ghost use Rattle.group_tree.specs.Opening.{opening_groups};
ghost use Rattle.machine.specs.Maps.{parameters_of};
ghost use Rattle.group_tree.specs.Others.{IsUseByOthers};
ghost use Rattle.group_tree.specs.Records.{has_gid, is_control_named, is_monitor_named};

mod lookup;

use crate::edit::{put, take_out};
use crate::group::Group;
use crate::group_counts::GroupCounts;
use crate::index::{Entry, enter, index_of_one, leave, rename};
use crate::key::Key;
use crate::opening::default_group;
use arrayvec::ArrayVec;
use machine::Machine;
use mode_rules::DomainUse;
use path_names::NameId;
use rc_base::{Gid, NoMemory};
use std::alloc::Global;
use std::marker::Model;

/// How many groups there are at most: 64 with a class, 8 that are pseudo-locked, and 256 with an RMID.
pub const PLACES: usize = 328;

/// The groups of the tree in order of creation, the default group first. Contracts see the list of their records, and
/// the machine's shareable bits. Gids differ. Two indices beside them, by gid and by directory, find a group in a few
/// steps. How many groups have each way is kept too, so that no walk over the groups is needed to see which ways are in
/// use. All places stand in three allocations, so that the value itself is small.
#[derive(Debug, Drop)]
pub struct Groups {
    records: Box<ArrayVec<Group, PLACES>>,
    gids: Box<ArrayVec<Entry, PLACES>>,
    names: Box<ArrayVec<Entry, PLACES>>,
    counts: GroupCounts,
    shareable: u32,
}

impl Model for Groups {
    ghost use Rattle.group_tree.specs.Indices.{IsIndexedTree};
    ghost use Rattle.group_tree.specs.Lists.{GroupList};

    ghost Value = { GroupList };

    ghost view = { λ t. record { groups = t.records.value.items; shareable = t.shareable } };

    ghost invariant = { λ t. IsIndexedTree t.records.value.items t.gids.value.items t.names.value.items t.counts.domains };
}

impl Groups {
    /// The groups of a machine at the start: the default group, shareable and with every way of each cache (kernel
    /// documentation, "Resource alloc and monitor groups"). NoMemory where there is no room for the places, of which there are
    /// as many as the tree can ever need.
    pub fn create(alloc: Global, m: &Machine) -> Result<Groups, NoMemory>
        ensures { IfOk result (λ t. t ≡ opening_groups (parameters_of m.now)) }
    {
        let first = default_group(m);
        let mut records = Box::new(alloc, ArrayVec::new())?;
        records.push(first);
        let gids = index_of_one(alloc, Key::of_gid(first.gid))?;
        let names = index_of_one(alloc, Key::of_directory(&first))?;
        Ok(Groups {
            records,
            gids,
            names,
            counts: GroupCounts::of_one(&first),
            shareable: m.shareable,
        })
    }

    /// How many groups there are.
    pub fn len(&self) -> u32
        ensures count { result ≡ length self.now.groups }
        ensures tree { IsTree self.now.groups }
    {
        self.records.len() as u32
    }

    /// Adds a group with a new gid after the others.
    pub fn insert(&mut self, g: Group)
        requires fresh { has_group g.gid self.old.groups ≡ false }
        requires place { length self.old.groups < PLACES }
        ensures last { self.new.groups ≡ self.old.groups ++ g ∷ [] }
        ensures kept { self.new.shareable ≡ self.old.shareable }
    {
        let place = self.records.len();
        enter(
            &mut self.gids,
            Entry {
                key: Key::of_gid(g.gid),
                place,
            },
        );
        enter(
            &mut self.names,
            Entry {
                key: Key::of_directory(&g),
                place,
            },
        );
        self.counts.add(&g);
        self.records.push(g);
    }

    /// Puts a record in place of the one with its gid.
    pub fn replace(&mut self, g: Group)
        requires { IsTrue (has_group g.gid self.old.groups) }
        ensures replaced { self.new.groups ≡ replaced g self.old.groups }
        ensures kept { self.new.shareable ≡ self.old.shareable }
    {
        let place = self.place_of(g.gid);
        rename(&mut self.names, self.records.as_slice(), place, &g);
        let old = put(&mut self.records, place, g);
        self.counts.remove(&old);
        self.counts.add(&g);
    }

    /// Removes a group other than the default group.
    pub fn remove(&mut self, gid: Gid)
        requires there { IsTrue (has_group gid self.old.groups) }
        requires not_default { gid.0 ≢ 0 }
        ensures without { self.new.groups ≡ without gid self.old.groups }
        ensures kept { self.new.shareable ≡ self.old.shareable }
    {
        let place = self.place_of(gid);
        leave(&mut self.gids, place);
        leave(&mut self.names, place);
        let gone = take_out(&mut self.records, place, gid);
        self.counts.remove(&gone);
    }

    /// The group with this gid, and None where there is no such group.
    pub fn get(&self, gid: Gid) -> Option<&Group>
        ensures found { option_copied result ≡ find (has_gid gid) self.now.groups }
        ensures there { is_some result ≡ has_group gid self.now.groups }
    {
        self.at_place(self.place_of(gid))
    }

    /// The i-th group in order of creation, from 0, and None where there are not so many.
    pub fn at(&self, i: u32) -> Option<&Group>
        ensures found { option_copied result ≡ slice_get self.now.groups i }
        ensures there { is_some result ≡ nat_lt i (length self.now.groups) }
    {
        self.records.as_slice().get(i as usize)
    }

    /// The control group of this name, and None where there is no such group.
    pub fn find_ctrl(&self, name: NameId) -> Option<Gid>
        ensures found { result ≡ option_map (λ g. g.gid) (find (is_control_named name) self.now.groups) }
        ensures there { is_some result ≡ list_any (is_control_named name) self.now.groups }
    {
        self.find_control(name).map(|g| g.gid)
    }

    /// The monitor group of this name of a control group, and None where there is no such group.
    pub fn find_mon(&self, parent: Gid, name: NameId) -> Option<Gid>
        ensures found { result ≡ option_map (λ g. g.gid) (find (is_monitor_named parent name) self.now.groups) }
        ensures there { is_some result ≡ list_any (is_monitor_named parent name) self.now.groups }
    {
        self.find_monitor(parent, name).map(|g| g.gid)
    }

    /// What all control groups but this one use of the cache of a domain, from 0 to 7; where none is named, what all of
    /// them use. It is the machine's shareable bits, and the unions of the masks of those that are shareable, exclusive
    /// and pseudo-locked.
    pub fn others(&self, gid: Option<Gid>, domain: u8) -> DomainUse
        requires { domain < 8 }
        ensures { IsUseByOthers self.now gid domain result }
    {
        let own = self.find_own(gid);
        self.counts.without(own, domain).used(self.shareable)
    }
}
