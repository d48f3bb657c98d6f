//! Whose an access is.
ghost use Rattle.std.specs.Prelude.{◌≡◌, ◌<◌, ◌^◌, Contains, unwrap_or, if◌then◌else◌};
ghost use Rattle.machine.specs.Maps.{domain_of};
ghost use Rattle.rc_base.specs.Gids.{is_default};
ghost use Rattle.tree_law.specs.Resolving.{class_of, counted_at, cpu_groups_of, mask_of_group, owner_of, resolve, rmid_of};
ghost use Rattle.tree_law.specs.State.{tasks_of};

use super::Tree;
use crate::masks::mask_in;
use rc_base::{Gid, Tag};

impl Tree {
    /// The tag of an access by a declared task on a CPU (kernel documentation, "Resource allocation rules" and "Resource
    /// monitoring rules").
    #[tactic(auto, unfolding(tree_law::specs::Resolving::resolve))]
    pub fn resolve(&self, task: u32, cpu: u8) -> Tag
        requires task { Contains (tasks_of self.now.state) task }
        requires cpu { cpu < self.now.machine.cpus }
        ensures epoch { result.epoch ≡ self.now.epoch }
        ensures owner { result.owner ≡ (resolve self.now.machine self.now.state task cpu).owner }
        ensures class { result.class ≡ (resolve self.now.machine self.now.state task cpu).class }
        ensures rmid { result.rmid ≡ (resolve self.now.machine self.now.state task cpu).rmid }
        ensures mask { result.mask ≡ (resolve self.now.machine self.now.state task cpu).mask }
        ensures domain { result.domain ≡ domain_of self.now.machine cpu }
        ensures known { result.rmid < self.now.machine.rmids }
        ensures valid { (0 < result.mask) × (result.mask < 2 ^ self.now.machine.ways) }
    {
        let domain = self.machine.domain_of(cpu);
        let (owner, counted) = self.owner_and_counted(task, cpu);
        let (class, mask) = self.class_and_mask(owner, domain);
        Tag {
            epoch: self.epoch,
            owner,
            class,
            rmid: self.rmid_of(counted),
            mask,
            domain,
        }
    }

    // The owner of an access, and the group in which it is counted.
    fn owner_and_counted(&self, task: u32, cpu: u8) -> (Gid, Gid)
        requires task { Contains (tasks_of self.now.state) task }
        requires cpu { cpu < self.now.machine.cpus }
        ensures owner { result.0 ≡ owner_of self.now.state task cpu }
        ensures counted { result.1 ≡ counted_at self.now.state task cpu }
    {
        let (control, monitor) = self.tasks.groups_of(task);
        (self.owner(control, cpu), self.counted(monitor, cpu))
    }

    // The class of a group and its mask in a domain, each 0 where there is none.
    fn class_and_mask(&self, gid: Gid, domain: u8) -> (u8, u32)
        requires { domain < 8 }
        ensures class { result.0 ≡ class_of self.now.state gid }
        ensures mask { result.1 ≡ mask_of_group self.now.state domain gid }
    {
        match self.groups.get(gid) {
            Some(group) => (group.class.unwrap_or(0), mask_in(&group.masks, domain)),
            None => (0, 0),
        }
    }

    // The RMID of a group, and 0 where it has none.
    fn rmid_of(&self, gid: Gid) -> u16
        ensures { result ≡ rmid_of self.now.state gid }
    {
        match self.groups.get(gid) {
            Some(group) => group.rmid.unwrap_or(0),
            None => 0,
        }
    }

    // The task's control group where that is not the default group, and else the CPU's.
    fn owner(&self, control: Gid, cpu: u8) -> Gid
        requires { cpu < self.now.machine.cpus }
        ensures { result ≡ (if is_default control then (cpu_groups_of self.now.state cpu).control else control) }
    {
        if control.is_default() {
            self.cpus.ctrl_of(cpu)
        } else {
            control
        }
    }

    // The group that the task is counted in where that is not the default group, and else the one that the CPU counts at.
    fn counted(&self, monitor: Gid, cpu: u8) -> Gid
        requires { cpu < self.now.machine.cpus }
        ensures { result ≡ (if is_default monitor
            then unwrap_or (cpu_groups_of self.now.state cpu).monitor (cpu_groups_of self.now.state cpu).control
            else monitor) }
    {
        if monitor.is_default() {
            self.cpus.mon_of(cpu)
        } else {
            monitor
        }
    }
}
