//! mkdir: making a group.
ghost use Rattle.std.specs.Prelude.{◌≡◌, ◌+◌, ◌<◌, ◌≤◌, ◌^◌, MatchResult, None, Some, find, is_none, length};
ghost use Rattle.pair_law.specs.Others.{class_is_free, free_class, initial_mask, places_on};
ghost use Rattle.pair_law.specs.Sound.{IsSound};
ghost use Rattle.pair_law.specs.commands.Mkdir as mkdir;
ghost use Rattle.pair_law.specs.commands.Mkdir.{initial_masks, new_group};
ghost use Rattle.pair_text.specs.Values.{AreMachines, class_count};
ghost use Rattle.pair_tree.specs.Changes.{GivesGroup, GivesMasks, MakesUnless};
ghost use Rattle.pair_tree.specs.Tables.{state_of};
ghost use Rattle.path_names.specs.declared.components.TheConstants.{MOST_NAME_BYTES};

use crate::lookup::{has_class, place_named};
use crate::machines::Machines;
use crate::tables::Tables;
use mode_rules::initial_mask;
use pair_text::{GroupName, PairGroup, Side};
use rc_base::{Gid, Mode, Reply, Why};

impl Tables {
    // Whether no group has this class.
    fn is_free(&self, class: u8) -> bool
        ensures { result ≡ class_is_free (state_of self.now) class }
    {
        !has_class(&self.groups, class)
    }

    // The lowest free class.
    fn free_class(&self, m: &Machines) -> Option<u8>
        ensures { result ≡ free_class m.now (state_of self.now) }
    {
        for class in 0..m.class_count() {
            if self.is_free(class) {
                return Some(class);
            }
        }
        None
    }

    // A new group's mask in a domain of a side, where there is space.
    fn new_mask(&self, m: &Machines, side: Side, domain: u8) -> Option<u32>
        requires { domain < 8 }
        ensures { result ≡ initial_mask m.now (state_of self.now) (record { side = side; domain = domain }) }
    {
        let used = self.used(m, None, side, domain);
        initial_mask(&used, &m.geometry(side))
    }

    // A new group's mask on a side in each domain, and 0 where the side has no such domain; an error is its least domain without space.
    fn new_masks(&self, m: &Machines, side: Side) -> Result<[u32; 8], u8>
        ensures { GivesMasks m.now (state_of self.now) side result }
    {
        let mut masks = [0; 8];
        for domain in 0..m.domains(side) {
            let Some(mask) = self.new_mask(m, side, domain) else {
                return Err(domain);
            };
            masks[domain as usize] = mask;
        }
        Ok(masks)
    }

    // A new group of this name, or the refusal of it.
    fn new_group(&self, m: &Machines, name: &[u8]) -> Result<PairGroup, Reply>
        requires { length name.now ≤ MOST_NAME_BYTES }
        ensures { GivesGroup m.now (state_of self.now) name.now result }
    {
        if place_named(&self.groups, name).is_some() {
            return Err(Reply::refused(Why::Exists, 0));
        }
        let Some(class) = self.free_class(m) else {
            return Err(Reply::refused(Why::OutOfClosids, 0));
        };
        let first = match self.new_masks(m, Side::First) {
            Ok(masks) => masks,
            Err(domain) => return Err(Reply::refused(Why::NoSpace, u64::from(domain))),
        };
        let second = match self.new_masks(m, Side::Second) {
            Ok(masks) => masks,
            Err(domain) => return Err(Reply::refused(Why::NoSpace, u64::from(domain))),
        };
        Ok(PairGroup {
            gid: Gid(self.next_gid),
            name: Some(GroupName::new(name)),
            mode: Mode::Shareable,
            class,
            first,
            second,
        })
    }

    /// Makes a group of this name, where nothing is against it.
    pub(crate) fn mkdir(&mut self, m: &Machines, name: &[u8]) -> Reply
        requires machines { AreMachines m.now }
        requires sound { IsSound m.now (state_of self.old) }
        requires short { length name.now ≤ MOST_NAME_BYTES }
        requires gids { self.old.next_gid + 1 < 2 ^ 32 }
        ensures { MakesUnless (state_of self.old) (mkdir.refusal m.now (state_of self.old) name.now)
            (mkdir.accepted m.now (state_of self.old) name.now) (state_of self.new) result }
    {
        match self.new_group(m, name) {
            Ok(group) => {
                self.groups.push_reserved(group);
                self.next_gid += 1;
                Reply::Ok
            }
            Err(reply) => reply,
        }
    }
}
