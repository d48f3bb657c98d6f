//! A write of `schemata`: the masks of a control group, or the region of a group in pseudo-locksetup.
ghost use Rattle.std.specs.Prelude.{◌≡◌, ◌<◌, ◌≤◌, ℕ, List, None, Ok, Some, [], false, find, length};
ghost use Rattle.group_tree.specs.Records.{has_gid};
ghost use Rattle.path_names.specs.declared.files.FileKind.TheVariants.{Schemata};
ghost use Rattle.path_names.specs.declared.path_ref.PathRef.TheVariants.{File};
ghost use Rattle.schemata_text.specs.Reading.{AreLawful};
ghost use Rattle.script_ops.specs.declared.limits.TheConstants.{MOST_WEIGHT};
ghost use Rattle.script_ops.specs.declared.op.Op.TheVariants.{Write};
ghost use Rattle.tree_core.specs.Changes.{MakesUnless, Takes};
ghost use Rattle.tree_core.specs.CpuFiles.{unless};
ghost use Rattle.tree_law.specs.Existing.{directory_gid};
ghost use Rattle.tree_law.specs.Places.{control_at, with_record};
ghost use Rattle.tree_law.specs.Refusals.{reply_of};
ghost use Rattle.tree_law.specs.Sound.{IsSound};
ghost use Rattle.tree_law.specs.Space.{geometry_of};
ghost use Rattle.tree_law.specs.Steps.{after};
ghost use Rattle.tree_law.specs.commands.Schemata as schemata;
ghost use Rattle.tree_law.specs.commands.Schemata.{against_entries, against_read, assigned, is_locked, names_many, schemata_read, with_masks};
ghost use Rattle.tree_law.specs.commands.Write.{against, reasons};

use super::Tree;
use crate::follow::{After, raise_named};
use crate::found_dir::FoundDir;
use crate::masks::assign;
use crate::mode_text::is_locked;
use crate::schemata::{names_many, read_schemata};
use command_parts::text_refusal;
use group_tree::{Group, GroupKind};
use rc_base::{Mode, Reply, Why};
use schemata_text::Assignment;

impl Tree {
    /// Writes the `schemata` of a directory.
    pub(crate) fn write_schemata(&mut self, at: FoundDir, text: &[u8], follows: &mut After) -> Reply
        requires writable { find (against self.old.state (File at.dir Schemata)) reasons ≡ None }
        requires found { at.gid ≡ directory_gid self.old.state at.dir }
        requires short { length text.now ≤ 4096 }
        requires locks { self.old.state.locks < self.old.epoch }
        requires epoch { self.old.epoch ≤ MOST_WEIGHT }
        requires nothing { follows.old.items ≡ [] }
        ensures { (looks : List ℕ)
            → Takes self.old (Write (File at.dir Schemata) text.now) looks self.new result follows.new.items }
    {
        // What the type keeps makes the next state a sound one.
        let _ = &self.machine;
        let Some(group) = self.control_in(at) else {
            return self.answer(Reply::Ok);
        };
        let reply = self.change_masks(&group, text, follows);
        self.answer(reply)
    }

    /// The group of a directory that was found, where it is a control group.
    pub(crate) fn control_in(&self, at: FoundDir) -> Option<Group>
        requires found { at.gid ≡ directory_gid self.now.state at.dir }
        ensures { result ≡ control_at self.now.state at.dir }
    {
        let group = self.groups.get(at.gid?)?;
        match group.kind {
            GroupKind::Control => Some(*group),
            GroupKind::Monitor { .. } => None,
        }
    }

    // Changes the masks of a group as a text says, or locks its region, where nothing is against it.
    fn change_masks(&mut self, group: &Group, text: &[u8], follows: &mut After) -> Reply
        requires there { find (has_gid group.now.gid) self.old.state.groups ≡ Some group.now }
        requires locks { self.old.state.locks < self.old.epoch }
        requires epoch { self.old.epoch ≤ MOST_WEIGHT }
        requires sound { schemata.refusal self.old.machine self.old.state group.now (schemata_read self.old.machine text.now) ≡ None
            → IsSound self.old.machine (schemata.accepted self.old.state group.now (schemata_read self.old.machine text.now)) }
        requires nothing { follows.old.items ≡ [] }
        ensures { MakesUnless self.old
            (schemata.refusal self.old.machine self.old.state group.now (schemata_read self.old.machine text.now))
            (schemata.accepted self.old.state group.now (schemata_read self.old.machine text.now))
            (schemata.after self.old.machine self.old.state group.now (schemata_read self.old.machine text.now))
            self.new result follows.new.items }
    {
        if is_locked(group.mode) {
            return Reply::refused(Why::GroupLocked, 0);
        }
        match read_schemata(&self.machine, text) {
            Ok(all) => self.take_masks(group, all.as_slice(), follows),
            Err(fault) => text_refusal(fault),
        }
    }

    // Takes the assignments of a text for a group that is not pseudo-locked, where nothing is against them.
    fn take_masks(&mut self, group: &Group, all: &[Assignment], follows: &mut After) -> Reply
        requires there { find (has_gid group.now.gid) self.old.state.groups ≡ Some group.now }
        requires unlocked { is_locked group.now.mode ≡ false }
        requires lawful { AreLawful (geometry_of self.old.machine) self.old.machine.domains all.now }
        requires locks { self.old.state.locks < self.old.epoch }
        requires epoch { self.old.epoch ≤ MOST_WEIGHT }
        requires sound { against_read self.old.machine self.old.state group.now (Ok all.now) ≡ None
            → IsSound self.old.machine (with_masks self.old.state group.now group.now.mode all.now) }
        requires nothing { follows.old.items ≡ [] }
        ensures { MakesUnless self.old (against_read self.old.machine self.old.state group.now (Ok all.now))
            (with_masks self.old.state group.now group.now.mode all.now)
            (schemata.follow self.old.machine self.old.state group.now.mode all.now) self.new result follows.new.items }
    {
        if names_many(group.mode, all) {
            return Reply::refused(Why::OneDomain, 0);
        }
        match self.against_masks(group, all) {
            Some(reply) => reply,
            None => {
                self.put_masks(group, all, follows);
                Reply::Ok
            }
        }
    }

    // Takes assignments that nothing stands against: the masks change, or the first locks a region.
    fn put_masks(&mut self, group: &Group, all: &[Assignment], follows: &mut After)
        requires there { find (has_gid group.now.gid) self.old.state.groups ≡ Some group.now }
        requires lawful { AreLawful (geometry_of self.old.machine) self.old.machine.domains all.now }
        requires free { against_entries self.old.machine self.old.state group.now all.now ≡ None }
        requires locks { self.old.state.locks < self.old.epoch }
        requires epoch { self.old.epoch ≤ MOST_WEIGHT }
        requires sound { IsSound self.old.machine (with_masks self.old.state group.now group.now.mode all.now) }
        requires nothing { follows.old.items ≡ [] }
        ensures tree { self.new ≡ record self.old { state = with_masks self.old.state group.now group.now.mode all.now } }
        ensures after { follows.new.items ≡ schemata.follow self.old.machine self.old.state group.now.mode all.now }
    {
        match group.mode {
            Mode::Shareable | Mode::Exclusive => self.write_masks(group, all, follows),
            Mode::LockSetup => match all {
                [a, ..] => self.lock(group, a, follows),
                [] => {}
            },
            Mode::Locked => {}
        }
    }

    // Changes the masks that are named, which leaves a sound tree, and raises their domains.
    fn write_masks(&mut self, group: &Group, all: &[Assignment], follows: &mut After)
        requires there { find (has_gid group.now.gid) self.old.state.groups ≡ Some group.now }
        requires lawful { AreLawful (geometry_of self.old.machine) self.old.machine.domains all.now }
        requires sound { IsSound self.old.machine
            (with_record self.old.state (record group.now { masks = assigned group.now.masks all.now })) }
        requires nothing { follows.old.items ≡ [] }
        ensures tree { self.new ≡ record self.old {
          state = with_record self.old.state (record group.now { masks = assigned group.now.masks all.now });
        } }
        ensures after { follows.new.items ≡ schemata.raises self.old.machine all.now }
    {
        raise_named(follows, self.machine.domains, all);
        let mut masks = group.masks;
        assign(&mut masks, all);
        self.put(*group, group.mode, masks);
    }
}
