//! The counts of lines that a command needs.
ghost use Rattle.std.specs.Prelude.{◌≡◌, ◌+◌, ◌<◌, ◌≤◌, ◌^◌, [], All, false};
ghost use Rattle.std.specs.List.{flat_map};
ghost use Rattle.machine.specs.declared.parameters.Parameters.{Parameters};
ghost use Rattle.script_ops.specs.Fits.{Fits};
ghost use Rattle.script_ops.specs.declared.op.Op.TheVariants as ops;
ghost use Rattle.tree_core.specs.RmidLists.{counts_in};
ghost use Rattle.tree_law.specs.LawsCounts.{CanLook};
ghost use Rattle.tree_law.specs.State.{State, tasks_of};
ghost use Rattle.tree_law.specs.Steps.{needs};

use super::Tree;
use crate::counts::Counts;
use crate::places::{counted_at, is_mode_file};
use crate::rmid_list::{RmidList, push_some};
use path_names::PathRef;
use script_ops::Op;

impl Tree {
    /// The counts that a command needs, in order: where it frees RMIDs or tests those in limbo, each of them in each domain; where
    /// it reads `llc_occupancy`, those of a group and of its monitor groups in one domain (this project's profile).
    pub fn counts(&self, op: &Op) -> Counts
        requires fits { Fits self.now.machine (tasks_of self.now.state) op.now }
        ensures needs { result ≡ needs self.now.machine self.now.state op.now }
        ensures exist { All (CanLook self.now.machine) result }
    {
        // What the type keeps makes these domains and RMIDs of the machine.
        let _ = &self.machine;
        if !may_need(op) {
            return Counts::none();
        }
        let mut rmids = RmidList::new();
        let (first, domains) = self.needed(op, &mut rmids);
        Counts::of(rmids, first, domains)
    }

    // Lists the RMIDs whose counts a command needs, and says in which domains: the first, and how many.
    fn needed(&self, op: &Op, rmids: &mut RmidList) -> (u8, u8)
        requires { rmids.old.items ≡ [] }
        ensures needs { flat_map (counts_in result.0 result.1) rmids.new.items ≡ needs self.now.machine self.now.state op.now }
        ensures some { 0 < result.1 }
        ensures fit { result.0 + result.1 ≤ 2 ^ 8 }
    {
        match op {
            Op::Rmdir { path } => self.needed_by_rmdir(*path, rmids),
            Op::Write { path, text } => self.needed_by_write(*path, text.as_slice(), rmids),
            Op::Tick => self.needed_by_tick(rmids),
            Op::Read { path } => self.needed_by_read(*path, rmids),
            _ => (0, 1),
        }
    }

    // The same for a removal.
    fn needed_by_rmdir(&self, path: PathRef, rmids: &mut RmidList) -> (u8, u8)
        requires { rmids.old.items ≡ [] }
        ensures needs { flat_map (counts_in result.0 result.1) rmids.new.items ≡ needs self.now.machine self.now.state (ops.Rmdir path) }
        ensures some { 0 < result.1 }
        ensures fit { result.0 + result.1 ≤ 2 ^ 8 }
    {
        self.push_freed_at(path, rmids);
        (0, self.machine.domains)
    }

    // The same for a write.
    fn needed_by_write(&self, path: PathRef, text: &[u8], rmids: &mut RmidList) -> (u8, u8)
        requires { rmids.old.items ≡ [] }
        ensures needs { flat_map (counts_in result.0 result.1) rmids.new.items
            ≡ needs self.now.machine self.now.state (ops.Write path text.now) }
        ensures some { 0 < result.1 }
        ensures fit { result.0 + result.1 ≤ 2 ^ 8 }
    {
        push_some(rmids, self.freed_by_write(path, text));
        (0, self.machine.domains)
    }

    // The same for a tick.
    fn needed_by_tick(&self, rmids: &mut RmidList) -> (u8, u8)
        requires { rmids.old.items ≡ [] }
        ensures needs { flat_map (counts_in result.0 result.1) rmids.new.items ≡ needs self.now.machine self.now.state ops.Tick }
        ensures some { 0 < result.1 }
        ensures fit { result.0 + result.1 ≤ 2 ^ 8 }
    {
        self.push_limbo(rmids);
        (0, self.machine.domains)
    }

    // The same for a read.
    fn needed_by_read(&self, path: PathRef, rmids: &mut RmidList) -> (u8, u8)
        requires { rmids.old.items ≡ [] }
        ensures needs { flat_map (counts_in result.0 result.1) rmids.new.items ≡ needs self.now.machine self.now.state (ops.Read path) }
        ensures some { 0 < result.1 }
        ensures fit { result.0 + result.1 ≤ 2 ^ 8 }
    {
        match counted_at(path) {
            Some((holder, domain)) => {
                self.push_held(holder, rmids);
                (domain, 1)
            }
            None => (0, 1),
        }
    }
}

// Whether a command may need counts, whatever the tree is.
fn may_need(op: &Op) -> bool
    ensures { result ≡ false → (m : Parameters) (s : State) → needs m s op.now ≡ [] }
{
    match op {
        Op::Rmdir { .. } | Op::Tick => true,
        Op::Write { path, .. } => is_mode_file(*path),
        Op::Read { path } => counted_at(*path).is_some(),
        _ => false,
    }
}
