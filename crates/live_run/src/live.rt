//! The shared tree and slices.
ghost use Rattle.std.specs.Prelude.{◌≡◌, ◌+◌, IsTrue, Some, false, true};
ghost use Rattle.live_law.specs.DoneOps.{HasEnded};
ghost use Rattle.live_law.specs.SeenJournals.{HasGrown};
ghost use Rattle.live_run.specs.Accesses.{HasAccessed};
ghost use Rattle.live_run.specs.Commands.{HasReplied};
ghost use Rattle.live_run.specs.Names.{seen_by};
ghost use Rattle.live_run.specs.Phases.{IsAtEnd};
ghost use Rattle.live_run.specs.Steps.{HasTaken};
ghost use Rattle.run_law.specs.Ops.{ByKind, is_command};
ghost use Rattle.script_ops.specs.Values.{op_at};

use crate::access::SliceGate;
use crate::around_tree::AroundTree;
use crate::asked_command::AskedCommand;
use crate::closing_room::Closing;
use crate::locks::lock_soon;
use crate::passes::Passes;
use crate::run_names::{NamedTable, RunNames};
use crate::seen::hand;
use crate::slices::Slices;
use crate::tree::TreeCell;
use crate::turn::AccessTurn;
use machine::Machine;
use rc_base::Reply;
use rc_stream::Gate;
use script_ops::{Op, Script};
use std::marker::Model;
use std::sync::{Mutex, Wait};
use step_world::Reached;

/// The tree and the slices, each under a lock of its own.
#[derive(Drop)]
pub struct Live<N: RunNames, T: NamedTable> {
    pub(crate) machine: Machine,
    pub(crate) tree: Mutex<TreeCell<N, T>>,
    pub(crate) slices: Slices<N, T>,
    // No one else takes this lock: it is there since threads may not share a pass.
    pub(crate) closing: Mutex<Closing<N>>,
}

impl<N: RunNames, T: NamedTable> Model for Live<N, T> {
    ghost use Rattle.live_run.specs.Cells.{LiveIsKept};
    ghost use Rattle.machine.specs.Maps.{parameters_of};
    ghost use Rattle.machine.specs.declared.parameters.Parameters.{Parameters};

    ghost Value = { Parameters };

    ghost view = { λ l. parameters_of l.machine };

    ghost invariant = { λ l. LiveIsKept N.script N.tree N.slices (parameters_of l.machine) };
}

impl<N: RunNames, T: NamedTable> Live<N, T> {
    /// Takes a thread's next op, a command: its reply, at its place in the one history of the tree. The tree's lock is held until all
    /// that follows the command is entered. Its text is there after it, where it is an accepted read or list.
    pub fn command<R: Wait>(&self, rt: &R, script: &Script, p: &mut Passes<N, T>, op: &Op) -> Reply
        requires script { script.now ≡ N.script }
        requires op { op_at N.script p.old.seen.thread p.old.next ≡ Some op.now }
        requires command { IsTrue (is_command op.now) }

        // By `phases::begin`, which asks that the thread has seen that those of earlier phases have ended.
        requires begun { p.old.begun ≡ true }
        ensures reply { HasReplied N.script true op.now result p.old p.new }
        ensures seen { HasGrown (seen_by p.old.seen) (seen_by p.new.seen) }
        ensures thread { p.new.seen.thread ≡ p.old.seen.thread }
        ensures next { p.new.next ≡ p.old.next + 1 }
        ensures begun { p.new.begun ≡ true }
    {
        self.carry_out(rt, script, p, op, true)
    }

    /// The same, with the text of a read or list only where it is asked for: the workers of a run leave it, since it takes longer than
    /// the command, with the tree's lock held.
    pub(crate) fn carry_out<R: Wait>(
        &self,
        rt: &R,
        script: &Script,
        p: &mut Passes<N, T>,
        op: &Op,
        asked: bool,
    ) -> Reply
        requires script { script.now ≡ N.script }
        requires op { op_at N.script p.old.seen.thread p.old.next ≡ Some op.now }
        requires command { IsTrue (is_command op.now) }

        // By `phases::begin`, which asks that the thread has seen that those of earlier phases have ended.
        requires begun { p.old.begun ≡ true }
        ensures reply { HasReplied N.script asked op.now result p.old p.new }
        ensures seen { HasGrown (seen_by p.old.seen) (seen_by p.new.seen) }
        ensures thread { p.new.seen.thread ≡ p.old.seen.thread }
        ensures next { p.new.next ≡ p.old.next + 1 }
        ensures begun { p.new.begun ≡ true }
    {
        let looks = p.looks.take();
        let around = AroundTree {
            rt,
            slices: &self.slices,
            script,
        };
        let command = AskedCommand {
            op,
            number: p.next,
            is_text_asked: asked,
        };
        let reply = lock_soon(&self.tree, rt).command(
            &around,
            &mut p.side,
            &command,
            looks,
            &mut p.shown,
        );
        p.side.cached = None;
        p.next += 1;
        reply
    }

    /// Makes a thread's next op, an access: it tags and touches, and tags again while its tag is stale. No lock is held between, and
    /// the gate is called with the lock of the slice held.
    pub fn access<R: Wait, G: Gate>(
        &self,
        rt: &R,
        p: &mut Passes<N, T>,
        op: &Op,
        gate: &G,
    ) -> Reached
        requires op { op_at N.script p.old.seen.thread p.old.next ≡ Some op.now }
        requires access { is_command op.now ≡ false }
        requires begun { p.old.begun ≡ true }
        ensures accessed { ByKind (λ task cpu addr. HasAccessed N.script p.old.next task cpu addr result p.old.seen p.new.seen) (Unit {0}) op.now }
        ensures seen { HasGrown (seen_by p.old.seen) (seen_by p.new.seen) }
        ensures shown { p.new.shown ≡ p.old.shown }
        ensures thread { p.new.seen.thread ≡ p.old.seen.thread }
        ensures next { p.new.next ≡ p.old.next + 1 }
        ensures begun { p.new.begun ≡ true }
    {
        // What the type keeps says that the script is lawful, so that there is room.
        let _ = &self.machine;
        let Op::Access { task, cpu, addr } = op else {
            unreachable!()
        };
        let hold = SliceGate { gate };
        let reached = self.reach(
            rt,
            &hold,
            &mut p.side,
            AccessTurn {
                number: p.next,
                task: *task,
                cpu: *cpu,
                addr: *addr,
            },
        );
        p.next += 1;
        reached
    }

    /// The later thread has seen what the earlier one has, and the earlier one what the later one has. Where one is at its end, the
    /// other has seen that it has ended.
    pub fn hand_on(&self, earlier: &mut Passes<N, T>, later: &mut Passes<N, T>)
        ensures earlier { HasTaken earlier.old.seen earlier.new.seen }
        ensures later { HasTaken later.old.seen later.new.seen }
        ensures same { seen_by earlier.new.seen ≡ seen_by later.new.seen }
        ensures next { (earlier.new.next ≡ earlier.old.next) × (later.new.next ≡ later.old.next) }
        ensures begun { (earlier.new.begun ≡ earlier.old.begun) × (later.new.begun ≡ later.old.begun) }
        ensures shown { (earlier.new.shown ≡ earlier.old.shown) × (later.new.shown ≡ later.old.shown) }
        ensures ended { IsAtEnd N.script earlier.old → HasEnded N.script (seen_by later.new.seen) earlier.old.seen.thread }
        ensures later_ended { IsAtEnd N.script later.old → HasEnded N.script (seen_by earlier.new.seen) later.old.seen.thread }
    {
        hand(&mut earlier.side.seen, &mut later.side.seen);
    }
}
