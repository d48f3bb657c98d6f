//! What `share` makes of a stream of several programs that comes piece by piece.
ghost use Rattle.std.specs.Prelude.{◌≡◌, ◌+◌, ◌≤◌, ◌++◌, ℕ, List, All, IfOk, OnOk, Err, decimal, length};
ghost use Rattle.call_rim.specs.Performing.{Performs};
ghost use Rattle.share_plans.specs.Reading.{AreOf, HasRead};
ghost use Rattle.share_plans.specs.Reports.{ReportsShares};
ghost use Rattle.share_plans.specs.Streams.{stream_of};
ghost use Rattle.share_plans.specs.declared.division_limits.TheConstants.{MOST_PROGRAMS, MOST_USES, MOST_WEIGHT};
ghost use Rattle.share_plans.specs.declared.program.Program.{Program as Named};
ghost use Rattle.way_curve.specs.CurveTexts.{bad_line_text};
ghost use Rattle.plan_top.specs.ShareForms.{ShareWords, programs_from, programs_of as programs_in};
ghost use Rattle.plan_top.specs.Shares.{HasNoBadTurn, RefusesStream, asked_by, reports_shares};

use crate::share_form::{ShareForm, Wish};
use call_rim::{Performed, StreamProgram, Taken};
use num_text::GrowingText;
use rc_base::{NoMemory, TextBuf};
use script_ops::Bytes;
use share_plans::{BadStream, MOST_STREAM_BYTES, Played, Program, Stream, share_report};
use std::alloc::Global;
use way_curve::{BadTrace, MOST_REFUSAL_BYTES, push_bad_line};

// The program of a number, which is its name.
fn program_of(alloc: Global, number: u8, wish: Wish) -> Result<Program, NoMemory>
    ensures { IfOk result (λ p. p ≡ record { name = decimal number; weight = wish.weight; least = wish.least }) }
{
    let mut name = GrowingText::create(alloc)?;
    name.push_decimal(u64::from(number))?;
    let name = Bytes::from_vec(alloc, name.into_bytes())?;
    Ok(Program {
        name,
        weight: wish.weight,
        least: wish.least,
    })
}

// Adds the programs of these wishes, numbered from this number on.
fn push_programs(
    alloc: Global,
    programs: &mut Vec<Program>,
    number: u8,
    wishes: &[Wish],
) -> Result<(), NoMemory>
    requires { number + length wishes.now ≤ 255 }
    ensures { OnOk result (programs.new.items ≡ programs.old.items ++ programs_from number wishes.now) }
{
    let [wish, wishes @ ..] = wishes else {
        return Ok(());
    };
    programs.push(program_of(alloc, number, *wish)?)?;
    push_programs(alloc, programs, number + 1, wishes)
}

// The programs that a form asks about.
fn programs_of(alloc: Global, form: &ShareForm) -> Result<Vec<Program>, NoMemory>
    ensures programs { IfOk result (λ programs. programs.items ≡ programs_in form.now) }
    ensures few { IfOk result (λ programs. length programs.items ≤ MOST_PROGRAMS) }
    ensures weights { IfOk result (λ programs. All (λ (p : Named). p.weight ≤ MOST_WEIGHT) programs.items) }
{
    let mut programs = Vec::new(alloc);
    push_programs(alloc, &mut programs, 0, form.wishes())?;
    Ok(programs)
}

// The report of what was played.
fn report(alloc: Global, form: &ShareForm, played: &Played) -> Result<Vec<u8>, NoMemory>
    requires { played.now.shared.uses ≤ MOST_USES }
    ensures { IfOk result (λ text. (bytes : List ℕ) → AreOf (asked_by form.now) played.now bytes
        → ReportsShares form.now.goal form.now.levels form.now.sets form.now.ways (programs_in form.now) bytes text.items) }
{
    let programs = programs_of(alloc, form)?;
    share_report(alloc, form.goal(), form.ways(), &programs, played)
}

// The line that refuses a stream: that of a trace.
fn refusal(alloc: Global, bad: BadStream) -> Result<Vec<u8>, NoMemory>
    ensures { IfOk result (λ text. text.items ≡ bad_line_text bad.line) }
{
    let mut text = TextBuf::with_room(alloc, MOST_REFUSAL_BYTES)?;
    push_bad_line(BadTrace { line: bad.line }, &mut text);
    let bytes = Vec::from_slice(alloc, text.bytes())?;
    Ok(bytes)
}

// The report, or out of memory.
fn report_on(alloc: Global, form: &ShareForm, played: &Played) -> Performed<()>
    requires { played.now.shared.uses ≤ MOST_USES }
    ensures { (bytes : List ℕ) → AreOf (asked_by form.now) played.now bytes → Performs (RefusesStream form.now) (reports_shares form.now) bytes result }
{
    match report(alloc, form, played) {
        Ok(report) => Performed::Reported {
            outcome: (),
            report,
        },
        Err(NoMemory) => Performed::NoMemory,
    }
}

// The refusal of a stream, or out of memory.
fn refuse(alloc: Global, bad: BadStream) -> Performed<()>
    ensures { (form : ShareWords) (bytes : List ℕ) → stream_of (length form.wishes) bytes ≡ Err bad.line
        → Performs (RefusesStream form) (reports_shares form) bytes result }
{
    match refusal(alloc, bad) {
        Ok(line) => Performed::Refused { line },
        Err(NoMemory) => Performed::NoMemory,
    }
}

impl StreamProgram for ShareForm {
    type State = Stream;

    type Outcome = ();

    ghost has_taken = { λ form stream bytes. HasRead (asked_by form) stream bytes };

    ghost good_so_far = { HasNoBadTurn };

    ghost count = { λ form stream. stream.bytes };

    ghost refuses = { RefusesStream };

    ghost reports = { reports_shares };

    fn begin(&self, alloc: Global) -> Result<Stream, NoMemory> {
        Stream::create(
            alloc,
            self.levels(),
            self.sets(),
            self.ways(),
            self.wishes().len() as u8,
        )
    }

    // A stream of more bytes than are counted ends as one that is out of memory.
    fn take(&self, alloc: Global, stream: &mut Stream, piece: &[u8]) -> Taken {
        if stream.bytes() + piece.len() as u64 > MOST_STREAM_BYTES {
            return Taken::NoMemory;
        }
        stream.take(piece);
        let Some(bad) = stream.bad_line() else {
            return Taken::More;
        };
        match refusal(alloc, bad) {
            Ok(line) => Taken::Refused { line },
            Err(NoMemory) => Taken::NoMemory,
        }
    }

    fn finish(&self, alloc: Global, stream: Stream) -> Performed<()> {
        match stream.finish() {
            Ok(played) => report_on(alloc, self, &played),
            Err(bad) => refuse(alloc, bad),
        }
    }
}
