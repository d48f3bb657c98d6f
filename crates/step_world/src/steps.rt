//! The steps of a thread.
ghost use Rattle.std.specs.Prelude.{◌≡◌, ◌<◌, true, length, slice_set, None};
ghost use Rattle.run_law.specs.Ops.{is_command};
ghost use Rattle.script_ops.specs.declared.op.Op.TheVariants as ops;
ghost use Rattle.step_world.specs.Answers.{HasNext, HasTagged, HasTaken, HasTouched};
ghost use Rattle.step_world.specs.Machine.{thread_at};
ghost use Rattle.step_world.specs.Worlds.{IsWorldOf, machine_of};
ghost use Rattle.step_world.specs.declared.thread_state.ThreadState.TheVariants.{Ready, Tagged};

use crate::thread_state::{Thread, ThreadState};
use crate::turn::{Access, Turn};
use crate::world::World;
use cache_core::Touched;
use rc_base::Tag;
use script_ops::{Op, Script};

/// Puts a thread where it is now: before or in the op of this turn.
pub(crate) fn move_to(threads: &mut Vec<Thread>, turn: Turn, state: ThreadState)
    requires { turn.thread < length threads.old.items }
    ensures { threads.new.items ≡ slice_set threads.old.items turn.thread (record { next = turn.number; state = state }) }
{
    threads[turn.thread as usize] = Thread {
        next: turn.number,
        state,
    };
}

/// A command takes the tree, and learns which counts it needs.
pub(crate) fn take(world: &mut World, script: &Script, turn: Turn, op: &Op)
    requires world { IsWorldOf script.now world.old }
    requires next { HasNext script.now (machine_of world.old) turn.thread op.now }
    requires number { turn.number ≡ (thread_at (machine_of world.old) turn.thread).next }
    requires place { (thread_at (machine_of world.old) turn.thread).state ≡ Ready }
    requires free { world.old.holder ≡ None }
    requires command { is_command op.now ≡ true }
    ensures world { IsWorldOf script.now world.new }
    ensures took { HasTaken turn.thread op.now (machine_of world.old) (machine_of world.new) }
{
    let counts = world.tree.counts(op);
    world.work.look_for(counts);
    world.holder = Some(turn.thread);
    move_to(&mut world.threads, turn, ThreadState::Looking { made: 0 });
}

/// An access reads its tag.
pub(crate) fn read_tag(world: &mut World, script: &Script, turn: Turn, access: Access) -> Tag
    requires world { IsWorldOf script.now world.old }
    requires next { HasNext script.now (machine_of world.old) turn.thread (ops.Access access.task access.cpu access.addr) }
    requires number { turn.number ≡ (thread_at (machine_of world.old) turn.thread).next }
    requires place { (thread_at (machine_of world.old) turn.thread).state ≡ Ready }
    requires free { world.old.holder ≡ None }
    ensures world { IsWorldOf script.now world.new }
    ensures tagged { HasTagged script.now turn.thread result.epoch (ops.Access access.task access.cpu access.addr) (machine_of world.old) (machine_of world.new) }
{
    let tag = world.tree.resolve(access.task, access.cpu);
    move_to(&mut world.threads, turn, ThreadState::Tagged { tag });
    tag
}

/// An access goes to its slice with its tag.
pub(crate) fn touch(
    world: &mut World,
    script: &Script,
    turn: Turn,
    tag: Tag,
    access: Access,
) -> Touched
    requires world { IsWorldOf script.now world.old }
    requires number { turn.number ≡ (thread_at (machine_of world.old) turn.thread).next }
    requires place { (thread_at (machine_of world.old) turn.thread).state ≡ Tagged tag }
    requires next { HasNext script.now (machine_of world.old) turn.thread (ops.Access access.task access.cpu access.addr) }
    ensures world { IsWorldOf script.now world.new }
    ensures touched { HasTouched script.now turn.thread result (ops.Access access.task access.cpu access.addr) (machine_of world.old) (machine_of world.new) }
    ensures tree { world.new.tree ≡ world.old.tree }
{
    let line = access.addr / 64;
    let slice = script.machine().line_slice(tag.domain, line);
    let touched = world.slices[slice].access(turn, &tag, line);
    match touched {
        Touched::Stale { .. } => move_to(&mut world.threads, turn, ThreadState::Ready),
        _ => {
            let next = Turn {
                number: turn.number + 1,
                ..turn
            };
            move_to(&mut world.threads, next, ThreadState::Ready);
        }
    }
    touched
}
