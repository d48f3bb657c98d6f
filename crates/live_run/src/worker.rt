//! A worker.
ghost use Rattle.std.specs.Prelude.{◌≡◌, ◌+◌, Some, true};
ghost use Rattle.live_law.specs.SeenJournals.{HasGrown};
ghost use Rattle.live_run.specs.Names.{seen_by};
ghost use Rattle.live_run.specs.Phases.{HasWorked, MayWork};
ghost use Rattle.script_ops.specs.Values.{op_at};

use crate::live::Live;
use crate::passes::Passes;
use crate::run_names::{NamedTable, RunNames};
use rc_stream::{Gate, Point};
use script_ops::{Op, Script};
use std::sync::Wait;

impl<N: RunNames, T: NamedTable> Live<N, T> {
    /// Makes all ops of a thread that has made none. The gate is called before and after each.
    pub(crate) fn work<R: Wait, G: Gate>(
        &self,
        rt: &R,
        script: &Script,
        p: &mut Passes<N, T>,
        gate: &G,
    )
        requires script { script.now ≡ N.script }
        requires may { MayWork N.script p.old }
        ensures { HasWorked N.script p.old p.new }
    {
        let thread = p.side.seen.thread();
        let ops = script.ops(thread);
        for i in 0..ops.len() {
            let op = ops.at(i);
            let op = op.get();
            gate.at(Point::BeforeOp, thread);
            self.make(rt, script, p, op, gate);
            gate.at(Point::AfterOp, thread);
        }
    }

    // Makes a thread's next op. Nobody reads its text.
    fn make<R: Wait, G: Gate>(
        &self,
        rt: &R,
        script: &Script,
        p: &mut Passes<N, T>,
        op: &Op,
        gate: &G,
    )
        requires script { script.now ≡ N.script }
        requires op { op_at N.script p.old.seen.thread p.old.next ≡ Some op.now }
        requires begun { p.old.begun ≡ true }
        ensures thread { p.new.seen.thread ≡ p.old.seen.thread }
        ensures next { p.new.next ≡ p.old.next + 1 }
        ensures begun { p.new.begun ≡ true }
        ensures seen { HasGrown (seen_by p.old.seen) (seen_by p.new.seen) }
    {
        if let Op::Access { .. } = op {
            self.access(rt, p, op, gate);
        } else {
            self.carry_out(rt, script, p, op, false);
        }
    }
}
