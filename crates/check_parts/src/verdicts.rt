//! The line that tells a verdict.
ghost use Rattle.std.specs.Prelude.{◌≡◌, ◌≤◌, IfOk, length};
ghost use Rattle.check_parts.specs.VerdictLines.{clause_word as word_of, verdict_line as line_of};

use journal_check::{Clause, Verdict};
use rc_base::{NoMemory, TextBuf};
use std::alloc::Global;

/// The word for a clause, in what `check` writes (this project's profile).
pub fn clause_word(clause: Clause) -> &'static str
    ensures word { result.now ≡ word_of clause }
    ensures short { length result.now ≤ 5 }
{
    match clause {
        Clause::CommandsStandOnce => "D15.1",
        Clause::TreeIsLegal => "D9",
        Clause::SlicesAreLegal => "D11",
        Clause::AccessesAreTrue => "D13.1",
        Clause::OthersAreTrue => "D13.2",
        Clause::StandAfterCommands => "D13.3",
        Clause::LooksAreMatched => "D14",
        Clause::EntriesStandOnce => "D15.2",
        Clause::MarksInOrder => "D15.3",
        Clause::EntriesInOrder => "D15.4",
    }
}

// The line that tells that journals are no run.
fn no_line(alloc: Global, clause: Clause) -> Result<Vec<u8>, NoMemory>
    ensures { IfOk result (λ line. line.items ≡ line_of (Verdict.No clause)) }
{
    let mut line = TextBuf::with_room(alloc, 16)?;
    line.push_all(b"no ".as_slice());
    line.push_all(clause_word(clause).as_bytes());
    line.push(b'\n');
    let line = Vec::from_slice(alloc, line.bytes())?;
    Ok(line)
}

// The line that tells that they are one.
fn yes_line(alloc: Global) -> Result<Vec<u8>, NoMemory>
    ensures { IfOk result (λ line. line.items ≡ line_of Verdict.Yes) }
{
    let line = Vec::from_slice(alloc, b"yes\n".as_slice())?;
    Ok(line)
}

/// The line that tells a verdict: `yes`, or `no` with the word for the first clause that is false.
pub fn verdict_line(alloc: Global, verdict: Verdict) -> Result<Vec<u8>, NoMemory>
    ensures { IfOk result (λ line. line.items ≡ line_of verdict) }
{
    match verdict {
        Verdict::Yes => yes_line(alloc),
        Verdict::No { clause } => no_line(alloc, clause),
    }
}
