//! The texts of a command: its words, its result, and the lines that it gave.
ghost use Rattle.std.specs.Prelude.{◌≡◌, ◌++◌, ◌∷◌, [], IfSome, OnOk, codes, false, length, map, true};
ghost use Rattle.std.specs.Str.Lines.{lines};
ghost use Rattle.json_report.specs.Pieces.{items_told, members_told};
ghost use Rattle.json_report.specs.Values.{array_of};
ghost use Rattle.report_pieces.specs.Results.{result_by, words_by};
ghost use Rattle.run_counts.specs.Touches.{TellsTouch};
ghost use Rattle.run_law.specs.Entries.{entry_value};
ghost use Rattle.script_ops.specs.Canonical.{IsNamed};
ghost use Rattle.serde_json.specs.Data.{string};

use crate::members::{push_comma, push_key, push_text};
use crate::strings::push_string;
use num_text::GrowingText;
use path_names::Names;
use rc_base::NoMemory;
use report_pieces::{push_result, push_words};
use run_replay::CommandAt;
use script_ops::{OpAt, next_line};
use std::alloc::Global;

// Adds lines.
fn push_lines(report: &mut GrowingText, text: &[u8]) -> Result<(), NoMemory>
    ensures { OnOk result (report.new ≡ report.old ++ items_told false (map string (lines text.now))) }
{
    let mut left = text;
    let mut later = false;
    while let Some((line, rest)) = next_line(left) {
        push_comma(report, later)?;
        push_string(report, line)?;
        later = true;
        left = rest;
    }
    Ok(())
}

/// Adds the member that is the lines of a text, after others.
pub fn push_text_lines(report: &mut GrowingText, text: &[u8]) -> Result<(), NoMemory>
    ensures { OnOk result (report.new ≡ report.old ++ members_told true ((codes "text", array_of (map string (lines text.now))) ∷ [])) }
{
    push_key(report, true, "text")?;
    report.push(b"[".as_slice())?;
    push_lines(report, text)?;
    report.push(b"]".as_slice())
}

/// Adds the member that is the result of a command, whose op this is, after others: `ok` or its error, and for an accepted touch
/// whether it hit.
pub fn push_result_text(
    alloc: Global,
    report: &mut GrowingText,
    command: &CommandAt<'_>,
    op: &Option<OpAt<'_>>,
    hit: Option<bool>,
) -> Result<(), NoMemory>
    requires { TellsTouch command.now.run.journals.now (entry_value command.now.entry.now) hit }
    ensures { OnOk result (report.new ≡ report.old ++ members_told true ((codes "result", string (result_by command.now.run.journals.now (entry_value command.now.entry.now) op.now)) ∷ [])) }
{
    let mut text = GrowingText::create(alloc)?;
    push_result(&mut text, command.run.journals, command.entry, op, hit)?;
    push_text(report, "result", &text.into_bytes())
}

/// Adds the member that is the words of an op, after others.
pub fn push_words_text(
    alloc: Global,
    report: &mut GrowingText,
    names: &Names,
    op: &Option<OpAt<'_>>,
) -> Result<(), NoMemory>
    requires { IfSome op.now (λ o. IsNamed (length names.now) o) }
    ensures { OnOk result (report.new ≡ report.old ++ members_told true ((codes "words", string (words_by names.now op.now)) ∷ [])) }
{
    let mut text = GrowingText::create(alloc)?;
    push_words(&mut text, names, op)?;
    push_text(report, "words", &text.into_bytes())
}
