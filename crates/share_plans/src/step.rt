//! What a line of a stream says.
ghost use Rattle.std.specs.Prelude.{◌≡◌, ◌+◌, ◌*◌, ◌<◌, ◌≤◌, IfSome, length};
ghost use Rattle.std.specs.Option.{option_or};
ghost use Rattle.std.specs.Str.Lines.{strip_carriage_return};
ghost use Rattle.line_words.specs.Lines.{words};
ghost use Rattle.lackey_text.specs.Lines.{IsInMemory};
ghost use Rattle.lackey_text.specs.Uses.{uses_of};
ghost use Rattle.share_plans.specs.Streams.{said_in, step_by, step_of as step_in, turn_of as turn_in};

use lackey_text::{LackeyLine, read_line};
use line_words::two_words;
use num_text::read_dec;
use rc_base::is_text;
use way_curve::MOST_LINE_BYTES;

/// What a line of a stream says: whose turn it is after it, if the first turn has begun, and what its program uses by it.
#[derive(Clone, Copy, Debug, PartialEq, Eq)]
pub struct Step {
    /// The program whose turn it is, numbered from 0.
    pub turn: Option<u8>,
    /// What the line says as one of a trace.
    pub said: LackeyLine,
}

// The program whose turn a line begins, one of so many.
fn turn_of(programs: u8, line: &[u8]) -> Option<u8>
    ensures turn { result ≡ turn_in programs (words line.now) }
    ensures within { IfSome result (λ program. program < programs) }
{
    let Some((word, number)) = two_words(line) else {
        return None;
    };
    if !is_text(word, b"turn") {
        return None;
    }
    match read_dec(number) {
        Some(n) if n < u64::from(programs) => Some(n as u8),
        _ => None,
    }
}

// What a line of a trace says in a turn.
fn said_in(turn: Option<u8>, said: LackeyLine) -> Option<Step>
    ensures step { result ≡ said_in turn said }
    ensures turn { IfSome result (λ step. step.turn ≡ turn) }
    ensures said { IfSome result (λ step. step.said ≡ said) }
{
    match (turn, said) {
        (None, LackeyLine::Use { .. }) => None,
        _ => Some(Step { turn, said }),
    }
}

// What a line says in a turn, by the turn that it begins, if it begins one.
fn step_by(begun: Option<u8>, turn: Option<u8>, line: &[u8]) -> Option<Step>
    ensures step { result ≡ step_by begun turn line.now }
    ensures in_memory { IfSome result (λ step. IsInMemory step.said) }
    ensures few { IfSome result (λ step. length (uses_of step.said) ≤ 65 * (length line.now + 1)) }
    ensures turn { IfSome result (λ step. step.turn ≡ option_or begun turn) }
{
    if begun.is_some() {
        return Some(Step {
            turn: begun,
            said: LackeyLine::Skip,
        });
    }
    match read_line(line) {
        Ok(said) => said_in(turn, said),
        Err(_) => None,
    }
}

// A line without a carriage return at its end.
fn strip(line: &[u8]) -> &[u8]
    ensures stripped { result.now ≡ strip_carriage_return line.now }
    ensures shorter { length result.now ≤ length line.now }
{
    match line {
        [rest @ .., b'\r'] => rest,
        _ => line,
    }
}

/// What a line says in a turn of one of so many programs; None where it is too long or none of a stream.
#[tactic(auto, unfolding(crate::specs::Streams::step_of))]
pub(crate) fn step_of(programs: u8, turn: Option<u8>, line: &[u8]) -> Option<Step>
    requires { IfSome turn (λ program. program < programs) }
    ensures step { result ≡ step_in programs turn line.now }
    ensures in_memory { IfSome result (λ step. IsInMemory step.said) }
    ensures few { IfSome result (λ step. length (uses_of step.said) ≤ 65 * (length line.now + 1)) }
    ensures turn { IfSome result (λ step. IfSome step.turn (λ program. program < programs)) }
{
    if line.len() > MOST_LINE_BYTES {
        return None;
    }
    step_by(turn_of(programs, line), turn, line)
}

/// What a line says that ends with a newline.
pub(crate) fn step_of_ended(programs: u8, turn: Option<u8>, line: &[u8]) -> Option<Step>
    requires { IfSome turn (λ program. program < programs) }
    ensures step { result ≡ step_in programs turn (strip_carriage_return line.now) }
    ensures in_memory { IfSome result (λ step. IsInMemory step.said) }
    ensures few { IfSome result (λ step. length (uses_of step.said) ≤ 65 * (length line.now + 1)) }
    ensures turn { IfSome result (λ step. IfSome step.turn (λ program. program < programs)) }
{
    step_of(programs, turn, strip(line))
}
