//! The steps of a command that holds the tree.
ghost use Rattle.std.specs.Prelude.{◌≡◌, ◌+◌, ◌≤◌, ◌<◌, ◌^◌, Some, length, slice_get};
ghost use Rattle.step_world.specs.Answers.{HasCounted, HasDecided, HasDone, HasNext};
ghost use Rattle.run_law.specs.LookLists.{spare_in};
ghost use Rattle.step_world.specs.Machine.{thread_at};
ghost use Rattle.step_world.specs.Works.{CountsOn, Settles};
ghost use Rattle.step_world.specs.Worlds.{IsWorldOf, machine_of};
ghost use Rattle.step_world.specs.declared.thread_state.ThreadState.TheVariants.{Following, Looking};

use crate::steps::move_to;
use crate::thread_state::ThreadState;
use crate::turn::Turn;
use crate::work::Work;
use crate::world::World;
use rc_base::Reply;
use run_law::{LookLists, TreeEntry, slice_for, slices_for};
use script_ops::{Op, Script};

// A slice was counted: the next slice of its domain comes, and after the last the sum is noted, and the next count comes.
fn count_on(work: &mut Work, lists: &mut LookLists, slices: u8, lines: u64)
    requires slice { work.old.slice < slices }
    requires at { work.old.at < work.old.count }
    requires sum { work.old.lines + lines < 2 ^ 64 }
    requires room { 0 < spare_in lists.old }
    ensures { CountsOn slices lines work.old work.new lists.old lists.new }
{
    work.lines += lines;
    work.slice += 1;
    if work.slice == slices {
        lists.note(work.lines);
        work.lines = 0;
        work.slice = 0;
        work.at += 1;
    }
}

/// A command that still needs counts looks at the next slice, and answers the lines that it found.
pub(crate) fn look(world: &mut World, script: &Script, turn: Turn, made: u64, op: &Op) -> u64
    requires world { IsWorldOf script.now world.old }
    requires next { HasNext script.now (machine_of world.old) turn.thread op.now }
    requires number { turn.number ≡ (thread_at (machine_of world.old) turn.thread).next }
    requires place { (thread_at (machine_of world.old) turn.thread).state ≡ Looking made }
    requires more { world.old.work.at < world.old.work.count }
    ensures world { IsWorldOf script.now world.new }
    ensures counted { HasCounted script.now turn.thread result op.now (machine_of world.old) (machine_of world.new) }
{
    let m = script.machine();
    let (domain, rmid) = world.work.need();
    let slice = m.slice_number(domain, world.work.slice);
    let lines = world.slices[slice].look(turn, world.tree.epoch(), rmid);
    count_on(
        &mut world.work,
        &mut world.lists[turn.thread as usize],
        m.slices,
        lines,
    );
    move_to(
        &mut world.threads,
        turn,
        ThreadState::Looking { made: made + 1 },
    );
    lines
}

// There is more to follow, or the tree is let go.
fn settle(world: &mut World, turn: Turn, made: u64)
    requires thread { turn.thread < length world.old.threads.items }
    requires number { turn.number + 1 < 2 ^ 32 }
    ensures { Settles turn.thread turn.number made world.old world.new }
{
    if (world.work.at as usize) < world.work.after.len() {
        move_to(&mut world.threads, turn, ThreadState::Following { made });
    } else {
        world.holder = None;
        let next = Turn {
            number: turn.number + 1,
            ..turn
        };
        move_to(&mut world.threads, next, ThreadState::Ready);
    }
}

/// A command that has all its counts is decided, and answers its reply. Where nothing follows it, the tree is let go.
pub(crate) fn decide(world: &mut World, script: &Script, turn: Turn, made: u64, op: &Op) -> Reply
    requires world { IsWorldOf script.now world.old }
    requires next { HasNext script.now (machine_of world.old) turn.thread op.now }
    requires number { turn.number ≡ (thread_at (machine_of world.old) turn.thread).next }
    requires place { (thread_at (machine_of world.old) turn.thread).state ≡ Looking made }
    requires all { world.old.work.count ≤ world.old.work.at }
    ensures world { IsWorldOf script.now world.new }
    ensures decided { HasDecided script.now turn.thread result op.now (machine_of world.old) (machine_of world.new) }
{
    let looks = world.lists[turn.thread as usize].take();
    let (reply, after) = world.tree.apply(op, looks.items());
    world.commands.push_reserved(TreeEntry {
        thread: turn.thread,
        op: turn.number,
        reply,
        looks,
    });
    world.work.follow_with(after);
    settle(world, turn, made);
    reply
}

/// One entry follows a command that was decided. After the last the tree is let go.
pub(crate) fn follow(world: &mut World, script: &Script, turn: Turn, made: u64, op: &Op)
    requires world { IsWorldOf script.now world.old }
    requires next { HasNext script.now (machine_of world.old) turn.thread op.now }
    requires number { turn.number ≡ (thread_at (machine_of world.old) turn.thread).next }
    requires place { (thread_at (machine_of world.old) turn.thread).state ≡ Following made }
    ensures world { IsWorldOf script.now world.new }
    ensures done { HasDone script.now turn.thread op.now (machine_of world.old) (machine_of world.new) }
{
    let m = script.machine();
    let follows = world.work.after.as_slice();
    let next = follows[world.work.at as usize];
    let slice = slice_for(m, next, world.work.slice);
    world.slices[slice].follow(turn, world.tree.epoch(), next);
    world.work.follow_on(slices_for(m, next));
    settle(world, turn, made + 1);
}
