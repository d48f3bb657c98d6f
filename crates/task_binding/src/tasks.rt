//! All declared tasks with their groups.
ghost use Rattle.std.specs.Prelude.{◌≡◌, ◌≢◌, ◌↔◌, ◌<◌, map, Some, None, Ok, Err, IsSome, IsSomeAnd, IfOk, OnOk, OnErr, is_some};
ghost use Rattle.std.specs.List.{slice_get};
ghost use Rattle.std.specs.List.Sorted.{IsStrictlyIncreasing};
ghost use Rattle.task_binding.specs.Bindings.{binding_of, changed, control_members, counted, has_control, has_monitor, is_of, joined, monitor_members, opening_binding};
ghost use Rattle.rc_base.specs.Gids.{default_gid};

mod rebinding;

use crate::binding::{BindFault, Binding};
use crate::counts::{GroupCount, has_tasks, opening_counts};
use crate::search::{nth_of_control, nth_of_monitor, place_of};
use rc_base::{Gid, NoMemory};
use std::alloc::{AllocError, Global};
use std::marker::Model;

/// The declared tasks, in the order of their ids, each with its groups. Contracts see the list of them.
#[derive(Drop)]
pub struct Tasks {
    bindings: Vec<Binding>,
    // How many tasks each control group has.
    controls: Vec<GroupCount>,
    // How many tasks are counted in each group.
    monitors: Vec<GroupCount>,
}

impl Model for Tasks {
    ghost use Rattle.std.specs.Prelude.{List, vec_capacity};
    ghost use Rattle.task_binding.specs.declared.binding.Binding.{Binding};
    ghost use Rattle.task_binding.specs.Bindings.{AreRising, has_control, has_monitor};
    ghost use Rattle.task_binding.specs.GroupCounts.{AreCounts};

    ghost Value = { List Binding };

    ghost view = { λ t. t.bindings.items };

    ghost invariant = { λ t. AreRising t.bindings.items
        × AreCounts has_control t.bindings.items t.controls.items (vec_capacity t.controls)
        × AreCounts has_monitor t.bindings.items t.monitors.items (vec_capacity t.monitors) };
}

impl Tasks {
    /// These tasks, all in the default group.
    pub fn create(alloc: Global, ids: &[u32]) -> Result<Tasks, NoMemory>
        requires { IsStrictlyIncreasing ids.now }
        ensures { IfOk result (λ tasks. tasks ≡ map opening_binding ids.now) }
    {
        let bindings = opening_bindings(alloc, ids)?;
        let controls = opening_counts(alloc, ids.len())?;
        let monitors = opening_counts(alloc, ids.len())?;
        Ok(Tasks {
            bindings,
            controls,
            monitors,
        })
    }

    /// Moves a task to a control group. It leaves its monitor group, also where it is in the control group already.
    pub fn bind_ctrl(&mut self, task: u64, group: Gid) -> Result<(), BindFault>
        ensures ok { OnOk result (self.new ≡ changed (is_of task) (joined group) self.old) }
        ensures no_task { (result ≡ Err BindFault.NoTask) ↔ (binding_of task self.old ≡ None) }
        ensures control { result ≢ Err BindFault.OtherControl }
        ensures err { OnErr result (self.new ≡ self.old) }
    {
        let Some(place) = place_of(&self.bindings, task) else {
            return Err(BindFault::NoTask);
        };
        let b = self.bindings[place];
        self.rebind(
            place,
            Binding {
                task: b.task,
                control: group,
                monitor: group,
            },
        );
        Ok(())
    }

    /// Counts a task in a monitor group of its control group `parent`.
    pub fn bind_mon(&mut self, task: u64, parent: Gid, group: Gid) -> Result<(), BindFault>
        ensures ok { OnOk result (self.new ≡ changed (is_of task) (counted group) self.old) }
        ensures no_task { (result ≡ Err BindFault.NoTask) ↔ (binding_of task self.old ≡ None) }
        ensures control { (result ≡ Err BindFault.OtherControl) ↔ IsSomeAnd (binding_of task self.old) (λ b. b.control ≢ parent) }
        ensures err { OnErr result (self.new ≡ self.old) }
    {
        let Some(place) = place_of(&self.bindings, task) else {
            return Err(BindFault::NoTask);
        };
        let b = self.bindings[place];
        if b.control != parent {
            return Err(BindFault::OtherControl);
        }
        self.rebind(
            place,
            Binding {
                task: b.task,
                control: b.control,
                monitor: group,
            },
        );
        Ok(())
    }

    /// Moves all tasks of a control group to the default group.
    pub fn unbind_ctrl(&mut self, group: Gid)
        ensures { self.new ≡ changed (has_control group) (joined default_gid) self.old }
    {
        if !self.has_ctrl_member(group) {
            return;
        }
        for place in 0..self.bindings.len() {
            self.unbind_ctrl_at(place, group);
        }
    }

    /// Counts all tasks of a monitor group in its parent.
    pub fn unbind_mon(&mut self, group: Gid, parent: Gid)
        ensures { self.new ≡ changed (has_monitor group) (counted parent) self.old }
    {
        if !self.has_mon_member(group) {
            return;
        }
        for place in 0..self.bindings.len() {
            self.unbind_mon_at(place, group, parent);
        }
    }

    /// All declared tasks with their groups, in the order of the ids.
    pub fn bindings(&self) -> &[Binding]
        ensures { result.now ≡ self.now }
    {
        &self.bindings
    }

    /// The control group of a declared task, and the group that it is counted in.
    pub fn groups_of(&self, task: u32) -> (Gid, Gid)
        requires { IsSome (binding_of task self.now) }
        ensures { binding_of task self.now ≡ Some (record { task = task; control = result.0; monitor = result.1 }) }
    {
        match place_of(&self.bindings, u64::from(task)) {
            Some(place) => {
                let b = &self.bindings[place];
                (b.control, b.monitor)
            }
            None => unreachable!(),
        }
    }

    /// Whether a control group has a task.
    pub fn has_ctrl_member(&self, group: Gid) -> bool
        ensures { result ≡ is_some (slice_get (control_members group self.now) 0) }
    {
        has_tasks(&self.controls, group)
    }

    /// Whether a task is counted in a group.
    pub fn has_mon_member(&self, group: Gid) -> bool
        ensures { result ≡ is_some (slice_get (monitor_members group self.now) 0) }
    {
        has_tasks(&self.monitors, group)
    }

    /// The i-th task of a control group, from 0, in the order of the ids; `None` where it has no more than i.
    pub fn ctrl_member(&self, group: Gid, i: u32) -> Option<u32>
        ensures member { result ≡ slice_get (control_members group self.now) i }
        ensures rising { IsStrictlyIncreasing (control_members group self.now) }
    {
        nth_of_control(&self.bindings, group, i)
    }

    /// The i-th task that is counted in a group, from 0, in the order of the ids; `None` where there are no more than i.
    pub fn mon_member(&self, group: Gid, i: u32) -> Option<u32>
        ensures member { result ≡ slice_get (monitor_members group self.now) i }
        ensures rising { IsStrictlyIncreasing (monitor_members group self.now) }
    {
        nth_of_monitor(&self.bindings, group, i)
    }
}

// The tasks as they are declared.
fn opening_bindings(alloc: Global, ids: &[u32]) -> Result<Vec<Binding>, AllocError>
    ensures { IfOk result (λ bindings. bindings.items ≡ map opening_binding ids.now) }
{
    ids.iter().map(|id| opening_binding(*id)).collect(alloc)
}

// A task as it is declared.
fn opening_binding(task: u32) -> Binding
    ensures { result ≡ opening_binding task }
{
    Binding {
        task,
        control: Gid::DEFAULT,
        monitor: Gid::DEFAULT,
    }
}
