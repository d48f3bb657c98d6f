//! A write of `mode`: whether a control group shares its ways, keeps them for itself, or is about to lock a region.
ghost use Rattle.std.specs.Prelude.{◌≡◌, ◌≤◌, ◌*◌, ◌&&◌, None, Some, [], find, length, true};
ghost use Rattle.std.specs.List.{list_any, range_with_len};
ghost use Rattle.std.specs.Option.{option_map};
ghost use Rattle.group_tree.specs.Records.{has_gid, is_control, is_mode};
ghost use Rattle.path_names.specs.declared.files.FileKind.TheVariants as files;
ghost use Rattle.path_names.specs.declared.path_ref.PathRef.TheVariants.{File};
ghost use Rattle.rc_base.specs.declared.names.Mode.TheVariants as modes;
ghost use Rattle.script_ops.specs.declared.op.Op.TheVariants.{Write};
ghost use Rattle.tree_core.specs.Changes.{MakesUnless, Takes};
ghost use Rattle.tree_core.specs.Modes.{AsksMode, against_turn};
ghost use Rattle.command_parts.specs.Replies.{reply_to};
ghost use Rattle.tree_law.specs.Existing.{directory_gid};
ghost use Rattle.tree_law.specs.Sound.{IsSound};
ghost use Rattle.tree_law.specs.Steps.{needs};
ghost use Rattle.tree_law.specs.commands.Mode as mode;
ghost use Rattle.tree_law.specs.commands.Mode.{overlaps_some};
ghost use Rattle.tree_law.specs.commands.Write.{against, reasons};

use super::Tree;
use crate::follow::After;
use crate::found_dir::FoundDir;
use crate::mode_text::{is_locked, mode_in};
use command_parts::is_named;
use group_tree::Group;
use rc_base::{Mode, Reply, Why};

impl Tree {
    /// Writes the `mode` of a directory, with the counts of the RMID that a group gives up when it enters pseudo-locksetup.
    pub(crate) fn write_mode(
        &mut self,
        at: FoundDir,
        text: &[u8],
        looks: &[u64],
        follows: &mut After,
    ) -> Reply
        requires writable { find (against self.old.state (File at.dir files.Mode)) reasons ≡ None }
        requires found { at.gid ≡ directory_gid self.old.state at.dir }
        requires short { length text.now ≤ 4096 }
        requires looks { length looks.now
            ≡ length (needs self.old.machine self.old.state (Write (File at.dir files.Mode) text.now)) }
        requires nothing { follows.old.items ≡ [] }
        ensures { Takes self.old (Write (File at.dir files.Mode) text.now) looks.now self.new result follows.new.items }
    {
        // What the type keeps makes the next state a sound one.
        let _ = &self.machine;
        let Some(group) = self.control_in(at) else {
            return self.answer(Reply::Ok);
        };
        let reply = self.change_mode(&group, text, looks, follows);
        self.answer(reply)
    }

    // Changes the mode of a group as a text asks, where nothing is against it.
    fn change_mode(
        &mut self,
        group: &Group,
        text: &[u8],
        looks: &[u64],
        follows: &mut After,
    ) -> Reply
        requires there { find (has_gid group.now.gid) self.old.state.groups ≡ Some group.now }
        requires control { is_control group.now.kind ≡ true }
        requires looks { mode.refusal self.old.machine self.old.state group.now text.now ≡ None
            → length looks.now ≡ length (mode.freed group.now text.now) * self.old.machine.domains }
        requires sound { mode.refusal self.old.machine self.old.state group.now text.now ≡ None
            → IsSound self.old.machine (mode.accepted self.old.machine self.old.state group.now text.now looks.now) }
        requires nothing { follows.old.items ≡ [] }
        ensures { MakesUnless self.old (mode.refusal self.old.machine self.old.state group.now text.now)
            (mode.accepted self.old.machine self.old.state group.now text.now looks.now)
            (mode.after self.old.machine group.now text.now) self.new result follows.new.items }
    {
        match self.asked_mode(group, text) {
            Ok(Some(mode)) => self.turn(group, mode, looks, follows),
            Ok(None) => Reply::Ok,
            Err(reply) => reply,
        }
    }

    /// What a text asks of a group: to turn to another mode, or to stay as it is. An error is why it is refused; a lack of RMIDs
    /// is not looked for here.
    pub(crate) fn asked_mode(&self, group: &Group, text: &[u8]) -> Result<Option<Mode>, Reply>
        ensures { AsksMode self.now.machine self.now.state group.now text.now result }
    {
        if is_named(text, group.mode) {
            return Ok(None);
        }
        if is_locked(group.mode) {
            return Err(Reply::refused(Why::GroupLocked, 0));
        }
        let Some(mode) = mode_in(text) else {
            return Err(Reply::refused(Why::UnknownMode, 0));
        };
        match self.against_turn(group, mode) {
            Some(reply) => Err(reply),
            None => Ok(Some(mode)),
        }
    }

    // What is against turning a group to another mode, but for a lack of RMIDs.
    fn against_turn(&self, group: &Group, mode: Mode) -> Option<Reply>
        ensures { result ≡ option_map reply_to (against_turn self.now.machine self.now.state group.now mode) }
    {
        if let Some(reply) = self.against_entry(group, mode) {
            return Some(reply);
        }
        if let Some(reply) = self.against_leaving(group) {
            return Some(reply);
        }
        if self.is_barred(group, mode) {
            return Some(Reply::refused(Why::SchemataOverlap, 0));
        }
        None
    }

    // What is against the masks that a group kept in pseudo-locksetup.
    fn against_leaving(&self, group: &Group) -> Option<Reply>
        ensures { result ≡ option_map reply_to (mode.against_leaving self.now.machine self.now.state group.now) }
    {
        match group.mode {
            Mode::LockSetup => self.against_kept_masks(group),
            Mode::Shareable | Mode::Exclusive | Mode::Locked => None,
        }
    }

    // Whether a group may not turn to this mode, since it would be exclusive and overlap what others use.
    fn is_barred(&self, group: &Group, mode: Mode) -> bool
        ensures { result ≡ (is_mode modes.Exclusive mode
            && list_any (overlaps_some self.now.machine self.now.state group.now) (range_with_len 0 self.now.machine.domains)) }
    {
        match mode {
            Mode::Exclusive => self.overlaps_some(group),
            Mode::Shareable | Mode::LockSetup | Mode::Locked => false,
        }
    }
}
