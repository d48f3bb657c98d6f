//! One phase of a script.
ghost use Rattle.std.specs.Prelude.{◌≡◌, ◌<◌, length, None, slice_get};
ghost use Rattle.run_law.specs.Ops.{phase_in};
ghost use Rattle.script_ops.specs.Values.{ops_of};
ghost use Rattle.step_world.specs.Answers.{HasNext};
ghost use Rattle.step_world.specs.Machine.{thread_at};
ghost use Rattle.step_world.specs.Play.{EndInTurn, PlaysPhaseBy, StepsOf, threads_of_phase};
ghost use Rattle.step_world.specs.Turns.{EndsThread, HasLetGo, TakesTurn};
ghost use Rattle.step_world.specs.Worlds.{IsWorldOf, machine_of};

use crate::listed::{PhaseThreads, step_listed};
use crate::passing::pass_all;
use crate::thread_state::ThreadState;
use crate::world::World;
use script_ops::{Op, OpAt, Ops, Script};

// These threads take a step each.
fn step_in_order(world: &mut World, script: &Script, order: &[u32])
    requires world { IsWorldOf script.now world.old }
    requires phase { world.old.phase < length script.now.phases }
    ensures world { IsWorldOf script.now world.new }
    ensures steps { StepsOf script.now order.now (machine_of world.old) (machine_of world.new) }
    ensures phase { world.new.phase ≡ world.old.phase }
{
    let present = PhaseThreads::of(script, world.phase);
    let mut cached = None;
    for t in order {
        step_listed(world, script, &present, *t, &mut cached);
    }
}

// The thread that holds the tree steps until it lets go.
fn let_go(world: &mut World, script: &Script)
    requires { IsWorldOf script.now world.old }
    ensures world { IsWorldOf script.now world.new }
    ensures lets_go { HasLetGo script.now world.old.holder (machine_of world.old) (machine_of world.new) }
    ensures free { world.new.holder ≡ None }
    ensures phase { world.new.phase ≡ world.old.phase }
{
    while let Some(t) = world.holder {
        world.step(script, t);
    }
}

// A thread that has this op to do takes a turn: accesses that come next, or its command, or one more step.
fn take_turn(world: &mut World, script: &Script, t: u32, ops: &Ops, op: &Op)
    requires world { IsWorldOf script.now world.old }
    requires ops { ops.now ≡ ops_of script.now t }
    requires next { HasNext script.now (machine_of world.old) t op.now }
    requires free { world.old.holder ≡ None }
    ensures world { IsWorldOf script.now world.new }
    ensures turn { TakesTurn script.now t (machine_of world.old) (machine_of world.new) }
{
    match (op, world.threads[t as usize].state) {
        (Op::Access { task, cpu, .. }, ThreadState::Ready) => {
            pass_all(world, script, t, ops, *task, *cpu);
        }
        _ => {
            world.act(script, t, op);
            let_go(world, script);
        }
    }
}

// The next op of a thread, which has these ops.
fn next_op<'o>(world: &World, ops: &'o Ops, t: u32) -> Option<OpAt<'o>>
    requires { t < length world.now.threads.items }
    ensures { result ≡ slice_get ops.now (thread_at (machine_of world.now) t).next }
{
    ops.get(world.threads[t as usize].next as usize)
}

// A thread steps to its end.
fn end_thread(world: &mut World, script: &Script, t: u32)
    requires world { IsWorldOf script.now world.old }
    requires present { phase_in script.now.phases t ≡ world.old.phase }
    requires thread { t < length world.old.threads.items }
    requires free { world.old.holder ≡ None }
    ensures world { IsWorldOf script.now world.new }
    ensures ends { EndsThread script.now t (machine_of world.old) (machine_of world.new) }
    ensures free { world.new.holder ≡ None }
    ensures phase { world.new.phase ≡ world.old.phase }
{
    let ops = script.ops(t);
    while let Some(op) = next_op(world, ops, t) {
        take_turn(world, script, t, ops, op.get());
    }
}

// The threads of the present phase step to their ends, one after the other.
fn end_threads(world: &mut World, script: &Script)
    requires world { IsWorldOf script.now world.old }
    requires phase { world.old.phase < length script.now.phases }
    requires free { world.old.holder ≡ None }
    ensures world { IsWorldOf script.now world.new }
    ensures ends { EndInTurn script.now (threads_of_phase script.now world.old.phase) (machine_of world.old) (machine_of world.new) }
    ensures free { world.new.holder ≡ None }
    ensures phase { world.new.phase ≡ world.old.phase }
{
    let first = script.first_thread(world.phase);
    for k in 0..script.thread_count(world.phase) {
        end_thread(world, script, first + k);
    }
}

impl World {
    /// Plays the present phase: the threads of `order` take a step each, then the thread that holds the tree steps until it lets go,
    /// and then each thread of the phase to its end, in rising order. The next phase begins (this project's profile).
    pub fn run_phase(&mut self, script: &Script, order: &[u32])
        requires world { IsWorldOf script.now self.old }
        requires phase { self.old.phase < length script.now.phases }
        ensures world { IsWorldOf script.now self.new }
        ensures plays { PlaysPhaseBy script.now order.now (machine_of self.old) (machine_of self.new) }
    {
        step_in_order(self, script, order);
        let_go(self, script);
        end_threads(self, script);
        self.phase += 1;
    }
}
