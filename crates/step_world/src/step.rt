//! One step of a thread.
ghost use Rattle.std.specs.Prelude.{◌≡◌, ◌<◌, ◌≤◌, ◌↔◌, IsTrue, IfSome, length, None, true, false};
ghost use Rattle.run_law.specs.Ops.{phase_in};
ghost use Rattle.script_ops.specs.Values.{threads_of};
ghost use Rattle.step_world.specs.Answers.{Answers, Does, HasNext, IsAtEnd, IsBlocked};
ghost use Rattle.step_world.specs.Machine.{Steps, thread_at};
ghost use Rattle.step_world.specs.Worlds.{IsWorldOf, machine_of};
ghost use Rattle.step_world.specs.declared.action.Stepped.TheVariants as stepped;
ghost use Rattle.step_world.specs.declared.thread_state.ThreadState.TheVariants.{Looking, Ready, Tagged};

use crate::action::{Action, Stepped};
use crate::commands::{decide, follow, look};
use crate::steps::{read_tag, take, touch};
use crate::thread_state::{Thread, ThreadState};
use crate::turn::{Access, Turn};
use crate::world::World;
use rc_base::Tag;
use script_ops::{Op, OpAt, Script};

impl World {
    // Whether a thread is of the present phase.
    fn is_present(&self, script: &Script, t: u32) -> bool
        requires phase { self.now.phase ≤ length script.now.phases }
        ensures present { result ≡ true → (phase_in script.now.phases t ≡ self.now.phase) }
        ensures there { result ≡ true → t < length (threads_of script.now) }
        ensures absent { result ≡ false → IsAtEnd script.now (machine_of self.now) t }
    {
        if self.phase == script.phases() {
            return false;
        }
        let first = script.first_thread(self.phase);
        if t < first {
            return false;
        }
        t - first < script.thread_count(self.phase)
    }

    // The next op of a thread of the present phase.
    fn next_op<'s>(&self, script: &'s Script, t: u32) -> Option<OpAt<'s>>
        requires world { IsWorldOf script.now self.now }
        ensures next { IfSome result (λ op. HasNext script.now (machine_of self.now) t op) }
        ensures end { result ≡ None → IsAtEnd script.now (machine_of self.now) t }
    {
        if self.is_present(script, t) {
            script.op(t, self.threads[t as usize].next)
        } else {
            None
        }
    }

    // Takes the tree, or reads a tag, where nobody holds the tree.
    fn begin(&mut self, script: &Script, turn: Turn, op: &Op) -> Stepped
        requires world { IsWorldOf script.now self.old }
        requires next { HasNext script.now (machine_of self.old) turn.thread op.now }
        requires number { turn.number ≡ (thread_at (machine_of self.old) turn.thread).next }
        requires place { (thread_at (machine_of self.old) turn.thread).state ≡ Ready }
        ensures world { IsWorldOf script.now self.new }
        ensures answers { Answers script.now turn.thread result (machine_of self.old) (machine_of self.new) }
    {
        if self.holder.is_some() {
            return Stepped::Blocked;
        }
        match op {
            Op::Access { task, cpu, addr } => {
                let tag = read_tag(
                    self,
                    script,
                    turn,
                    Access {
                        task: *task,
                        cpu: *cpu,
                        addr: *addr,
                    },
                );
                Stepped::Did {
                    action: Action::Tagged { epoch: tag.epoch },
                }
            }
            _ => {
                take(self, script, turn, op);
                Stepped::Did {
                    action: Action::Took,
                }
            }
        }
    }

    // Looks, or decides where all looks are made.
    fn look_or_decide(&mut self, script: &Script, turn: Turn, made: u64, op: &Op) -> Action
        requires world { IsWorldOf script.now self.old }
        requires next { HasNext script.now (machine_of self.old) turn.thread op.now }
        requires number { turn.number ≡ (thread_at (machine_of self.old) turn.thread).next }
        requires place { (thread_at (machine_of self.old) turn.thread).state ≡ Looking made }
        ensures world { IsWorldOf script.now self.new }
        ensures does { Does script.now turn.thread result op.now (machine_of self.old) (machine_of self.new) }
    {
        if self.work.at < self.work.count {
            Action::Looked {
                lines: look(self, script, turn, made, op),
            }
        } else {
            Action::Decided {
                reply: decide(self, script, turn, made, op),
            }
        }
    }

    // Goes with a tag to the slice of its line.
    fn touch_line(&mut self, script: &Script, turn: Turn, tag: Tag, op: &Op) -> Action
        requires world { IsWorldOf script.now self.old }
        requires next { HasNext script.now (machine_of self.old) turn.thread op.now }
        requires number { turn.number ≡ (thread_at (machine_of self.old) turn.thread).next }
        requires place { (thread_at (machine_of self.old) turn.thread).state ≡ Tagged tag }
        ensures world { IsWorldOf script.now self.new }
        ensures does { Does script.now turn.thread result op.now (machine_of self.old) (machine_of self.new) }
    {
        match op {
            Op::Access { task, cpu, addr } => Action::Touched {
                touched: touch(
                    self,
                    script,
                    turn,
                    tag,
                    Access {
                        task: *task,
                        cpu: *cpu,
                        addr: *addr,
                    },
                ),
            },
            _ => unreachable!(),
        }
    }

    /// Does the next step of a thread that has a next op.
    pub(crate) fn act(&mut self, script: &Script, t: u32, op: &Op) -> Stepped
        requires world { IsWorldOf script.now self.old }
        requires next { HasNext script.now (machine_of self.old) t op.now }
        ensures world { IsWorldOf script.now self.new }
        ensures answers { Answers script.now t result (machine_of self.old) (machine_of self.new) }
    {
        let Thread { next, state } = self.threads[t as usize];
        let turn = Turn {
            thread: t,
            number: next,
        };
        match state {
            ThreadState::Ready => self.begin(script, turn, op),
            ThreadState::Looking { made } => Stepped::Did {
                action: self.look_or_decide(script, turn, made, op),
            },
            ThreadState::Following { made } => {
                follow(self, script, turn, made, op);
                Stepped::Did {
                    action: Action::Followed,
                }
            }
            ThreadState::Tagged { tag } => Stepped::Did {
                action: self.touch_line(script, turn, tag, op),
            },
        }
    }

    /// Does the next atomic step of a thread, counted from 0 through the whole script (this project's profile). `Did` tells which
    /// step of the machine it was. `Blocked` exactly where the next step is to take the tree or to read a tag, and another thread
    /// holds the tree; `Ended` exactly where the thread is not of the present phase or its ops are done. Both change nothing. It
    /// takes no memory.
    pub fn step(&mut self, script: &Script, thread: u32) -> Stepped
        requires world { IsWorldOf script.now self.old }
        ensures world { IsWorldOf script.now self.new }
        ensures steps { Steps script.now thread (machine_of self.old) (machine_of self.new) }
        ensures answers { Answers script.now thread result (machine_of self.old) (machine_of self.new) }
        ensures ended { (result ≡ stepped.Ended) ↔ IsAtEnd script.now (machine_of self.old) thread }
        ensures blocked { (result ≡ stepped.Blocked) ↔ IsBlocked script.now (machine_of self.old) thread }
    {
        match self.next_op(script, thread) {
            Some(op) => self.act(script, thread, op.get()),
            None => Stepped::Ended,
        }
    }
}
