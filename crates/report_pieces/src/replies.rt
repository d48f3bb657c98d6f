//! Replies, and the texts of files after bars.
ghost use Rattle.std.specs.Prelude.{◌≡◌, ◌∷◌, ◌++◌, [], OnOk};
ghost use Rattle.rc_base.specs.Reasons.{argument_text, reason_text};
ghost use Rattle.report_pieces.specs.Pieces.{barred, reply_text};

use num_text::GrowingText;
use rc_base::{Argument, NoMemory, Reply, Why};
use script_ops::next_line;

// Adds the argument of a reason.
fn push_argument(report: &mut GrowingText, argument: Argument, arg: u64) -> Result<(), NoMemory>
    ensures { OnOk result (report.new ≡ report.old ++ argument_text argument arg) }
{
    match argument {
        Argument::Absent => Ok(()),
        Argument::Decimal => report.push_decimal(arg),
        Argument::Hexadecimal => report.push_hexadecimal(arg, 0),
    }
}

// Adds the text of a reason.
fn push_reason(report: &mut GrowingText, why: Why, arg: u64) -> Result<(), NoMemory>
    ensures { OnOk result (report.new ≡ report.old ++ reason_text why arg) }
{
    let wording = why.wording();
    report.push(wording.before.as_bytes())?;
    push_argument(report, wording.argument, arg)?;
    report.push(wording.after.as_bytes())
}

/// Adds a reply.
pub fn push_reply(report: &mut GrowingText, reply: Reply) -> Result<(), NoMemory>
    ensures { OnOk result (report.new ≡ report.old ++ reply_text reply) }
{
    match reply {
        Reply::Ok => report.push(b"ok".as_slice()),
        Reply::Refused { errno, why, arg } => {
            report.push(errno.name().as_bytes())?;
            report.push(b" ".as_slice())?;
            push_reason(report, why, arg)
        }
    }
}

/// Adds each line of a text after a bar.
pub fn push_barred(report: &mut GrowingText, file: &[u8]) -> Result<(), NoMemory>
    ensures { OnOk result (report.new ≡ report.old ++ barred file.now) }
{
    let mut left = file;
    while let Some((line, rest)) = next_line(left) {
        push_line(report, line)?;
        left = rest;
    }
    Ok(())
}

// Adds a line after a bar.
fn push_line(report: &mut GrowingText, line: &[u8]) -> Result<(), NoMemory>
    ensures { OnOk result (report.new ≡ report.old ++ (124 ∷ line.now ++ 10 ∷ [])) }
{
    report.push(b"|".as_slice())?;
    report.push(line)?;
    report.push(b"\n".as_slice())
}
