//! Turns: some ops of one thread.
ghost use Rattle.std.specs.Prelude.{◌≡◌, ◌+◌, ◌≤◌, OnOk, Some, true};
ghost use Rattle.live_tests.specs.Turns.{HasMade};
ghost use Rattle.script_ops.specs.Values.{op_at};

use live_run::run_names::NamedTable;
use live_run::{Live, Passes, Reached, RunNames};
use rc_base::Reply;
use rc_stream::OpenGate;
use script_ops::{Op, Script};
use std::sync::Wait;
use std::test::Fail;

/// What a thread is answered.
#[derive(Clone, Copy, Debug, PartialEq, Eq)]
pub enum Answer {
    /// To a command.
    Command(Reply),
    /// To an access.
    Access(Reached),
}

/// The next ops of a thread, by their numbers: from one on, and up to another that is still to come.
#[derive(Clone, Copy)]
pub struct Turn {
    pub thread: u32,
    pub from: u32,
    pub to: u32,
}

// Makes the next op of a thread.
fn make<N: RunNames, T: NamedTable, R: Wait>(
    rt: &R,
    live: &Live<N, T>,
    script: &Script,
    op: &Op,
    p: &mut Passes<N, T>,
) -> Answer
    requires script { script.now ≡ N.script }
    requires op { op_at N.script p.old.seen.thread p.old.next ≡ Some op.now }
    requires begun { p.old.begun ≡ true }
    ensures thread { p.new.seen.thread ≡ p.old.seen.thread }
    ensures next { p.new.next ≡ p.old.next + 1 }
    ensures begun { p.new.begun ≡ true }
{
    if let Op::Access { .. } = op {
        Answer::Access(live.access(rt, p, op, &OpenGate))
    } else {
        Answer::Command(live.command(rt, script, p, op))
    }
}

/// Makes the ops of a turn, and adds what the thread is answered.
pub fn take_turn<N: RunNames, T: NamedTable, R: Wait>(
    rt: &R,
    live: &Live<N, T>,
    script: &Script,
    turn: Turn,
    p: &mut Passes<N, T>,
    answers: &mut Vec<Answer>,
) -> Result<(), Fail>
    requires script { script.now ≡ N.script }
    requires on { turn.from ≤ turn.to }
    requires made { HasMade turn.thread turn.from p.old }
    ensures made { OnOk result (HasMade turn.thread turn.to p.new) }
{
    for number in turn.from..turn.to {
        let Some(op) = script.op(turn.thread, number) else {
            return Err(Fail::new("no such op"));
        };
        answers.push(make(rt, live, script, op.get(), p))?;
    }
    Ok(())
}
