//! The canonical texts of commands.
ghost use Rattle.std.specs.Prelude.{◌≡◌, ◌++◌, OnOk, codes};
ghost use Rattle.pair_report.specs.PairOpTexts.{command_text, file_path, group_prefix};
ghost use Rattle.script_ops.specs.Canonical.{text_after};

use num_text::GrowingText;
use pair_text::{PairFile, PairOp};
use rc_base::NoMemory;
use script_ops::{Bytes, push_written};

// Adds a word, and after it a group's name.
fn push_name(report: &mut GrowingText, word: &[u8], name: &Bytes) -> Result<(), NoMemory>
    ensures { OnOk result (report.new ≡ report.old ++ (word.now ++ name.now)) }
{
    report.push(word)?;
    report.push(name.as_slice())
}

// Adds the directory of a group, as it stands in front of a slash.
fn push_group_prefix(report: &mut GrowingText, group: &Option<Bytes>) -> Result<(), NoMemory>
    ensures { OnOk result (report.new ≡ report.old ++ group_prefix group.now) }
{
    match group {
        Some(name) => push_name(report, b"/".as_slice(), name),
        None => Ok(()),
    }
}

// Adds the path of a file.
fn push_file(report: &mut GrowingText, file: &PairFile) -> Result<(), NoMemory>
    ensures { OnOk result (report.new ≡ report.old ++ file_path file.now) }
{
    push_group_prefix(report, &file.group)?;
    report.push(b"/".as_slice())?;
    report.push(file.kind.name())
}

// Adds a write.
fn push_write(report: &mut GrowingText, file: &PairFile, text: &Bytes) -> Result<(), NoMemory>
    ensures { OnOk result (report.new ≡ report.old ++ (codes "write " ++ file_path file.now ++ text_after text.now)) }
{
    report.push(b"write ".as_slice())?;
    push_file(report, file)?;
    push_written(report, text.as_slice())
}

// Adds a read.
fn push_read(report: &mut GrowingText, file: &PairFile) -> Result<(), NoMemory>
    ensures { OnOk result (report.new ≡ report.old ++ (codes "read " ++ file_path file.now)) }
{
    report.push(b"read ".as_slice())?;
    push_file(report, file)
}

/// Adds the canonical text of a command, and nothing for a use of a line.
pub(crate) fn push_command(report: &mut GrowingText, op: &PairOp) -> Result<(), NoMemory>
    ensures { OnOk result (report.new ≡ report.old ++ command_text op.now) }
{
    match op {
        PairOp::Mkdir { name } => push_name(report, b"mkdir /".as_slice(), name),
        PairOp::Rmdir { name } => push_name(report, b"rmdir /".as_slice(), name),
        PairOp::Write { file, text } => push_write(report, file, text),
        PairOp::Read { file } => push_read(report, file),
        PairOp::Flush => report.push(b"flush".as_slice()),
        PairOp::Use { .. } => Ok(()),
    }
}
