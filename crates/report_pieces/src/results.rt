//! The words and the results of commands.
ghost use Rattle.std.specs.Prelude.{◌≡◌, ◌++◌, IfSome, OnOk, length};
ghost use Rattle.report_pieces.specs.Results.{hit_text, result_by, result_text, words_by};
ghost use Rattle.run_counts.specs.Touches.{TellsTouch};
ghost use Rattle.run_law.specs.Entries.{entry_value};
ghost use Rattle.script_ops.specs.Canonical.{IsNamed};

use crate::replies::push_reply;
use num_text::GrowingText;
use path_names::Names;
use rc_base::NoMemory;
use run_counts::is_accepted_touch;
use run_law::{Journals, TreeEntry};
use script_ops::{Op, OpAt, push_op_text};

// Adds whether an access hit.
fn push_hit(report: &mut GrowingText, hit: Option<bool>) -> Result<(), NoMemory>
    ensures { OnOk result (report.new ≡ report.old ++ hit_text hit) }
{
    match hit {
        Some(true) => report.push(b" hit".as_slice()),
        Some(false) => report.push(b" miss".as_slice()),
        None => Ok(()),
    }
}

// Adds the result of this op of an entry.
fn push_result_text(
    report: &mut GrowingText,
    journals: &Journals,
    entry: &TreeEntry,
    op: &Op,
    hit: Option<bool>,
) -> Result<(), NoMemory>
    requires { TellsTouch journals.now (entry_value entry.now) hit }
    ensures { OnOk result (report.new ≡ report.old ++ result_text journals.now entry.now.thread entry.now.op op.now entry.now.reply) }
{
    push_reply(report, entry.reply)?;
    if is_accepted_touch(op, entry.reply) {
        push_hit(report, hit)
    } else {
        Ok(())
    }
}

/// Adds the canonical text of an op, and nothing where there is none.
pub fn push_words(
    report: &mut GrowingText,
    names: &Names,
    op: &Option<OpAt<'_>>,
) -> Result<(), NoMemory>
    requires { IfSome op.now (λ o. IsNamed (length names.now) o) }
    ensures { OnOk result (report.new ≡ report.old ++ words_by names.now op.now) }
{
    match op {
        Some(op) => push_op_text(report, names, op.get()),
        None => Ok(()),
    }
}

/// Adds the result of an entry, whose op this is: `ok`, or the error's name and the reason's text; for an accepted touch `ok hit`
/// or `ok miss`, by its access.
pub fn push_result(
    report: &mut GrowingText,
    journals: &Journals,
    entry: &TreeEntry,
    op: &Option<OpAt<'_>>,
    hit: Option<bool>,
) -> Result<(), NoMemory>
    requires { TellsTouch journals.now (entry_value entry.now) hit }
    ensures { OnOk result (report.new ≡ report.old ++ result_by journals.now (entry_value entry.now) op.now) }
{
    match op {
        Some(op) => push_result_text(report, journals, entry, op.get(), hit),
        None => push_reply(report, entry.reply),
    }
}
