//! An access: its turns, and where its thread can be held in a slice.
ghost use Rattle.std.specs.Prelude.{◌≡◌, ◌+◌, ◌<◌, ◌≤◌, ◌^◌, Contains, Some, length, true};
ghost use Rattle.live_law.specs.Stages.{HoldsTag, slice_reached};
ghost use Rattle.live_run.specs.Accesses.{HasAccessed, HasTurned};
ghost use Rattle.live_run.specs.CachedTags.{HoldsCached, IsNoted};
ghost use Rattle.live_run.specs.Names.{seen_by};
ghost use Rattle.live_run.specs.Sharing.{HasStepped, IsBeforeAccess, IsResting, noted_tag, op_after};
ghost use Rattle.live_run.specs.Steps.{HasTaken};
ghost use Rattle.live_run.specs.Visits.{HasRoomIn};
ghost use Rattle.machine.specs.Maps.{domain_of, line_of};
ghost use Rattle.machine.specs.Slices.{slice_of_line};
ghost use Rattle.run_law.specs.Quotas.{command_count};
ghost use Rattle.schedule_law.specs.declared.part.Happening.TheVariants as happenings;
ghost use Rattle.script_ops.specs.Values.{op_at};
ghost use Rattle.script_ops.specs.declared.op.Op.TheVariants.{Access};

use crate::live::Live;
use crate::locks::lock_soon;
use crate::run_names::{NamedTable, RunNames};
use crate::thread_side::ThreadSide;
use crate::turn::{AccessTurn, TaggedAccess};
use rc_base::Tag;
use rc_stream::{Gate, Point};
use std::sync::Wait;
use step_world::Reached;

/// Is called with the lock of a slice held, just before an access touches.
pub(crate) trait Hold {
    /// The worker of this thread has come there.
    fn hold(&self, thread: u32);
}

/// The point of a gate in a slice.
#[derive(Drop)]
pub(crate) struct SliceGate<'a, G: Gate> {
    pub(crate) gate: &'a G,
}

impl<G: Gate> Hold for SliceGate<'_, G> {
    fn hold(&self, thread: u32) {
        self.gate.at(Point::InSlice, thread);
    }
}

impl<N: RunNames, T: NamedTable> Live<N, T> {
    // An access learns its tag: the one that its thread was given last, by one load, where that is of this task and CPU and the tree has
    // taken no command since; else the tree is asked under its lock, which waits for the command that holds it.
    fn learn(&self, rt: &impl Wait, side: &mut ThreadSide<N>, task: u32, cpu: u8) -> Tag
        requires task { Contains N.script.tasks task }
        requires cpu { cpu < N.script.machine.cpus }
        requires worker { IsBeforeAccess N.script T.table task cpu side.old.seen side.old.share }
        requires cached { HoldsCached N.script side.old.seen side.old.cached }
        requires noted { IsNoted side.old.share side.old.cached }
        ensures cached_now { HoldsCached N.script side.new.seen side.new.cached }
        ensures noted_now { IsNoted side.new.share side.new.cached }
        ensures taken { HasTaken side.old.seen side.new.seen }
        ensures tag { HoldsTag N.script (seen_by side.new.seen) task cpu result }
        ensures fresh { length side.old.seen.tree.seen ≤ result.epoch }
        ensures most { result.epoch ≤ command_count N.script }
        ensures known { result.rmid < N.script.machine.rmids }
        ensures valid { (0 < result.mask) × (result.mask < 2 ^ N.script.machine.ways) }
        ensures worker { HasStepped (happenings.Label (noted_tag task cpu result)) side.old.share side.new.share }
    {
        // What the type keeps says that the script is lawful.
        let _ = &self.machine;
        match side.recall::<T>(task, cpu) {
            Some(tag) => tag,
            None => lock_soon(&self.tree, rt).tag(side, task, cpu),
        }
    }

    // One turn: it tags and touches. The epoch of its tag, where that was stale.
    fn turn(
        &self,
        rt: &impl Wait,
        hold: &impl Hold,
        side: &mut ThreadSide<N>,
        access: AccessTurn,
    ) -> Result<Reached, u64>
        requires op { op_at N.script side.old.seen.thread access.number ≡ Some (Access access.task access.cpu access.addr) }
        requires room { HasRoomIn N.script (slice_reached N.script.machine access.cpu access.addr) side.old.seen }
        requires worker { IsResting T.table side.old.seen.thread access.number true side.old.share }
        requires cached { HoldsCached N.script side.old.seen side.old.cached }
        requires noted { IsNoted side.old.share side.old.cached }
        ensures cached_now { HoldsCached N.script side.new.seen side.new.cached }
        ensures noted_now { IsNoted side.new.share side.new.cached }
        ensures turned { HasTurned N.script access.number access.task access.cpu access.addr side.old.seen side.new.seen result }
        ensures worker { IsResting T.table side.old.seen.thread (op_after access.number result) true side.new.share }
    {
        let AccessTurn {
            number,
            task,
            cpu,
            addr,
        } = access;
        // What the type keeps says that the access fits the machine.
        let _ = &self.machine;
        let tag = self.learn(rt, side, task, cpu);
        let line = addr / 64;
        let slice = self.machine.line_slice(tag.domain, line);
        let tagged = TaggedAccess {
            slice,
            number,
            tag,
            line,
        };
        match self.slices.touch(rt, hold, side, &tagged) {
            Some(reached) => Ok(reached),
            None => Err(tag.epoch),
        }
    }

    /// Turns until the tag is not stale. Each has a greater epoch than the last.
    pub(crate) fn reach(
        &self,
        rt: &impl Wait,
        hold: &impl Hold,
        side: &mut ThreadSide<N>,
        access: AccessTurn,
    ) -> Reached
        requires op { op_at N.script side.old.seen.thread access.number ≡ Some (Access access.task access.cpu access.addr) }
        requires room { HasRoomIn N.script (slice_reached N.script.machine access.cpu access.addr) side.old.seen }
        requires worker { IsResting T.table side.old.seen.thread access.number true side.old.share }
        requires cached { HoldsCached N.script side.old.seen side.old.cached }
        requires noted { IsNoted side.old.share side.old.cached }
        ensures cached_now { HoldsCached N.script side.new.seen side.new.cached }
        ensures noted_now { IsNoted side.new.share side.new.cached }
        ensures accessed { HasAccessed N.script access.number access.task access.cpu access.addr result side.old.seen side.new.seen }
        ensures worker { IsResting T.table side.old.seen.thread (access.number + 1) true side.new.share }
    {
        let mut turn = self.turn(rt, hold, side, access);
        loop {
            match turn {
                Ok(reached) => return reached,
                Err(_) => turn = self.turn(rt, hold, side, access),
            }
        }
    }
}
