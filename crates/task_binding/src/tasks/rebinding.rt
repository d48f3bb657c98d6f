//! Giving the task at a place other groups, with the counts.
ghost use Rattle.std.specs.Prelude.{◌≡◌, ◌<◌, length, set, if◌then◌else◌};
ghost use Rattle.std.specs.List.{HoldsAt};
ghost use Rattle.task_binding.specs.Bindings.{counted, has_control, has_monitor, joined};
ghost use Rattle.rc_base.specs.Gids.{default_gid};

use super::Tasks;
use crate::binding::Binding;
use crate::counts::recount;
use rc_base::Gid;

impl Tasks {
    /// Moves the task at a place to the default group, where it is in this one.
    pub(super) fn unbind_ctrl_at(&mut self, place: usize, group: Gid)
        requires { place < length self.old }
        ensures { HoldsAt (λ b. self.new ≡ (if has_control group b then set self.old place (joined default_gid b) else self.old)) self.old place }
    {
        if self.bindings[place].control == group {
            self.leave_ctrl(place);
        }
    }

    // Moves the task at a place to the default group.
    fn leave_ctrl(&mut self, place: usize)
        requires { place < length self.old }
        ensures { HoldsAt (λ b. self.new ≡ set self.old place (joined default_gid b)) self.old place }
    {
        let b = self.bindings[place];
        self.rebind(
            place,
            Binding {
                task: b.task,
                control: Gid::DEFAULT,
                monitor: Gid::DEFAULT,
            },
        );
    }

    /// Counts the task at a place in the parent, where it is counted in this group.
    pub(super) fn unbind_mon_at(&mut self, place: usize, group: Gid, parent: Gid)
        requires { place < length self.old }
        ensures { HoldsAt (λ b. self.new ≡ (if has_monitor group b then set self.old place (counted parent b) else self.old)) self.old place }
    {
        if self.bindings[place].monitor == group {
            self.leave_mon(place, parent);
        }
    }

    // Counts the task at a place in the parent.
    fn leave_mon(&mut self, place: usize, parent: Gid)
        requires { place < length self.old }
        ensures { HoldsAt (λ b. self.new ≡ set self.old place (counted parent b)) self.old place }
    {
        let b = self.bindings[place];
        self.rebind(
            place,
            Binding {
                task: b.task,
                control: b.control,
                monitor: parent,
            },
        );
    }

    /// Gives the task at a place other groups.
    pub(super) fn rebind(&mut self, place: usize, to: Binding)
        requires within { place < length self.old }
        requires task { HoldsAt (λ b. b.task ≡ to.task) self.old place }
        ensures { self.new ≡ set self.old place to }
    {
        let from = self.bindings[place];
        recount(&mut self.controls, from.control, to.control);
        recount(&mut self.monitors, from.monitor, to.monitor);
        self.bindings[place] = to;
    }
}
