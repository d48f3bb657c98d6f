//! The steps of an order list.
ghost use Rattle.std.specs.Prelude.{◌≡◌, ◌+◌, ◌<◌, ◌≤◌, ◌↔◌, None, IsTrue, length};
ghost use Rattle.run_law.specs.Ops.{phase_in};
ghost use Rattle.script_ops.specs.Fits.{Fits};
ghost use Rattle.script_ops.specs.declared.op.Op.TheVariants as ops;
ghost use Rattle.step_world.specs.Answers.{HasNext};
ghost use Rattle.step_world.specs.Listed.{AreOf, IsCurrent};
ghost use Rattle.step_world.specs.Machine.{Steps, thread_at};
ghost use Rattle.step_world.specs.Passing.{IsResolved};
ghost use Rattle.step_world.specs.Worlds.{IsWorldOf, machine_of};
ghost use Rattle.step_world.specs.declared.thread_state.ThreadState.TheVariants.{Ready};
ghost use Rattle.tree_law.specs.State.{tasks_of};

use crate::steps::{move_to, touch};
use crate::thread_state::ThreadState;
use crate::turn::{Access, Turn};
use crate::world::World;
use rc_base::Tag;
use script_ops::{Op, Script};

/// The threads of a phase: the first of them, and how many there are.
#[derive(Clone, Copy)]
pub(crate) struct PhaseThreads {
    first: u32,
    count: u32,
}

impl PhaseThreads {
    /// Those of this phase.
    pub(crate) fn of(script: &Script, phase: u32) -> PhaseThreads
        requires { phase < length script.now.phases }
        ensures { AreOf script.now phase result }
    {
        PhaseThreads {
            first: script.first_thread(phase),
            count: script.thread_count(phase),
        }
    }

    // Whether a thread is one of them.
    fn has(&self, t: u32) -> bool
        ensures { IsTrue result ↔ ((self.now.first ≤ t) × (t < self.now.first + self.now.count)) }
    {
        self.first <= t && t - self.first < self.count
    }
}

/// The tag that the tree gives the accesses of a task on a CPU.
#[derive(Clone, Copy)]
pub(crate) struct CachedTag {
    task: u32,
    cpu: u8,
    tag: Tag,
}

// The tag of a task on a CPU: the one that is cached, or else the one that the tree answers, which is cached from then on.
fn cached_tag(world: &World, cached: &mut Option<CachedTag>, task: u32, cpu: u8) -> Tag
    requires fits { Fits world.now.tree.machine (tasks_of world.now.tree.state) (ops.Access task cpu 0) }
    requires cached { IsCurrent cached.old world.now }
    ensures tag { IsResolved world.now task cpu result }
    ensures cached { IsCurrent cached.new world.now }
{
    match *cached {
        Some(
            CachedTag {
                task: of,
                cpu: on,
                tag,
            },
        ) if of == task && on == cpu => tag,
        _ => {
            let tag = world.tree.resolve(task, cpu);
            *cached = Some(CachedTag { task, cpu, tag });
            tag
        }
    }
}

// An access reads its tag, by the tag that is cached.
fn read_cached(
    world: &mut World,
    script: &Script,
    turn: Turn,
    access: Access,
    cached: &mut Option<CachedTag>,
)
    requires world { IsWorldOf script.now world.old }
    requires next { HasNext script.now (machine_of world.old) turn.thread (ops.Access access.task access.cpu access.addr) }
    requires number { turn.number ≡ (thread_at (machine_of world.old) turn.thread).next }
    requires place { (thread_at (machine_of world.old) turn.thread).state ≡ Ready }
    requires free { world.old.holder ≡ None }
    requires cached { IsCurrent cached.old world.old }
    ensures world { IsWorldOf script.now world.new }
    ensures steps { Steps script.now turn.thread (machine_of world.old) (machine_of world.new) }
    ensures cached { IsCurrent cached.new world.new }
{
    let tag = cached_tag(world, cached, access.task, access.cpu);
    move_to(&mut world.threads, turn, ThreadState::Tagged { tag });
}

// A thread that has this op to do takes a step. An access leaves the tree as it is, so that a cached tag stays current.
fn step_op(world: &mut World, script: &Script, t: u32, op: &Op, cached: &mut Option<CachedTag>)
    requires world { IsWorldOf script.now world.old }
    requires next { HasNext script.now (machine_of world.old) t op.now }
    requires thread { t < length world.old.threads.items }
    requires cached { IsCurrent cached.old world.old }
    ensures world { IsWorldOf script.now world.new }
    ensures steps { Steps script.now t (machine_of world.old) (machine_of world.new) }
    ensures cached { IsCurrent cached.new world.new }
{
    let thread = world.threads[t as usize];
    let turn = Turn {
        thread: t,
        number: thread.next,
    };
    match (op, thread.state) {
        (Op::Access { task, cpu, addr }, ThreadState::Ready) if world.holder.is_none() => {
            read_cached(
                world,
                script,
                turn,
                Access {
                    task: *task,
                    cpu: *cpu,
                    addr: *addr,
                },
                cached,
            );
        }
        (Op::Access { task, cpu, addr }, ThreadState::Tagged { tag }) => {
            touch(
                world,
                script,
                turn,
                tag,
                Access {
                    task: *task,
                    cpu: *cpu,
                    addr: *addr,
                },
            );
        }
        _ => {
            world.act(script, t, op);
            *cached = None;
        }
    }
}

// A thread of the present phase takes a step.
fn step_present(world: &mut World, script: &Script, t: u32, cached: &mut Option<CachedTag>)
    requires world { IsWorldOf script.now world.old }
    requires present { phase_in script.now.phases t ≡ world.old.phase }
    requires thread { t < length world.old.threads.items }
    requires cached { IsCurrent cached.old world.old }
    ensures world { IsWorldOf script.now world.new }
    ensures steps { Steps script.now t (machine_of world.old) (machine_of world.new) }
    ensures cached { IsCurrent cached.new world.new }
{
    let n = world.threads[t as usize].next;
    let Some(op) = script.op(t, n) else {
        return;
    };
    step_op(world, script, t, op.get(), cached);
}

/// The thread of this number takes a step, where it is one of those of the present phase.
pub(crate) fn step_listed(
    world: &mut World,
    script: &Script,
    present: &PhaseThreads,
    t: u32,
    cached: &mut Option<CachedTag>,
)
    requires world { IsWorldOf script.now world.old }
    requires phase { world.old.phase < length script.now.phases }
    requires present { AreOf script.now world.old.phase present.now }
    requires cached { IsCurrent cached.old world.old }
    ensures world { IsWorldOf script.now world.new }
    ensures steps { Steps script.now t (machine_of world.old) (machine_of world.new) }
    ensures cached { IsCurrent cached.new world.new }
{
    if present.has(t) {
        step_present(world, script, t, cached);
    }
}
