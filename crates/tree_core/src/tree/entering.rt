//! Entering pseudo-locksetup: what keeps a group out.
ghost use Rattle.std.specs.Prelude.{◌≡◌, if◌then◌else◌, is_some, length, slice_get};
ghost use Rattle.std.specs.Option.{option_map};
ghost use Rattle.mode_rules.specs.Setup.{entry_refusal};
ghost use Rattle.task_binding.specs.Bindings.{control_members};
ghost use Rattle.command_parts.specs.Replies.{reply_to};
ghost use Rattle.tree_law.specs.Freeing.{monitors_of};
ghost use Rattle.tree_law.specs.commands.Mode.{against_entry, holdings, reason_of};

use super::Tree;
use crate::rmid_list::{RmidList, push_monitors};
use group_tree::Group;
use mode_rules::may_enter_setup;
use rc_base::{Gid, Mode, Reply};

impl Tree {
    /// What keeps a group out of pseudo-locksetup, where that is the mode it is to turn to.
    pub(crate) fn against_entry(&self, group: &Group, mode: Mode) -> Option<Reply>
        ensures { result ≡ option_map reply_to (against_entry self.now.state group.now mode) }
    {
        match mode {
            Mode::LockSetup => self.kept_out(group),
            Mode::Shareable | Mode::Exclusive | Mode::Locked => None,
        }
    }

    // What keeps a group out of pseudo-locksetup.
    fn kept_out(&self, group: &Group) -> Option<Reply>
        ensures { result ≡ option_map reply_to (reason_of (entry_refusal (holdings self.now.state group.now))) }
    {
        let monitors = self.monitor_count(group.gid);
        let tasks = self.any_task(group.gid);
        let cpus = self.cpus.ctrl_set(group.gid);
        match may_enter_setup(group.gid.is_default(), monitors, tasks, cpus) {
            Ok(()) => None,
            Err(why) => Some(Reply::refused(why, 0)),
        }
    }

    // How many monitor groups a control group has. Each has an RMID.
    fn monitor_count(&self, gid: Gid) -> u32
        ensures { result ≡ length (monitors_of self.now.state gid) }
    {
        let mut rmids = RmidList::new();
        push_monitors(&mut rmids, &self.groups, gid);
        rmids.len() as u32
    }

    // 1 where a control group has tasks, and else 0.
    fn any_task(&self, gid: Gid) -> u32
        ensures { result ≡ (if is_some (slice_get (control_members gid self.now.state.tasks) 0) then 1 else 0) }
    {
        if self.tasks.has_ctrl_member(gid) {
            1
        } else {
            0
        }
    }
}
