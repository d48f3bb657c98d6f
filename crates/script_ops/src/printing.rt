//! The canonical texts of ops.
ghost use Rattle.std.specs.Prelude.{◌≡◌, ◌++◌, OnOk, OnErr, length, codes, decimal};
ghost use Rattle.path_names.specs.NamesIn.{path_ids, AreKnown};
ghost use Rattle.path_names.specs.PathTexts.{path_text};
ghost use Rattle.script_ops.specs.Canonical.{op_ids, op_text, text_after};
ghost use Rattle.script_ops.specs.declared.op.Op.TheVariants.{Access, Flush, Touch};

use crate::op::Op;
use crate::written::push_written;
use num_text::GrowingText;
use path_names::{Names, PathRef, push_path};
use rc_base::NoMemory;
use std::alloc::Global;

// Adds a word and a path.
fn push_command(
    text: &mut GrowingText,
    word: &[u8],
    names: &Names,
    path: PathRef,
) -> Result<(), NoMemory>
    requires { AreKnown (length names.now) (path_ids path) }
    ensures { OnOk result (text.new ≡ text.old ++ (word.now ++ path_text names.now path)) }
{
    text.push(word)?;
    push_path(text, names, path)
}

// Adds a write.
fn push_write(
    text: &mut GrowingText,
    names: &Names,
    path: PathRef,
    written: &[u8],
) -> Result<(), NoMemory>
    requires { AreKnown (length names.now) (path_ids path) }
    ensures { OnOk result (text.new ≡ text.old ++ (codes "write " ++ path_text names.now path ++ text_after written.now)) }
{
    push_command(text, b"write ", names, path)?;
    push_written(text, written)
}

// Adds a flush.
fn push_flush(text: &mut GrowingText, names: &Names, domain: Option<u8>) -> Result<(), NoMemory>
    ensures { OnOk result (text.new ≡ text.old ++ op_text names.now (Flush domain)) }
{
    match domain {
        None => text.push(b"flush"),
        Some(domain) => {
            text.push(b"flush ")?;
            text.push_decimal(u64::from(domain))
        }
    }
}

// Adds an access.
fn push_access(
    text: &mut GrowingText,
    names: &Names,
    task: u32,
    cpu: u8,
    addr: u64,
) -> Result<(), NoMemory>
    ensures { OnOk result (text.new ≡ text.old ++ op_text names.now (Access task cpu addr)) }
{
    text.push(b"access ")?;
    text.push_decimal(u64::from(task))?;
    text.push(b" ")?;
    text.push_decimal(u64::from(cpu))?;
    text.push(b" ")?;
    text.push_decimal(addr)
}

// Adds what stands after the path of a touch.
fn push_use(text: &mut GrowingText, offset: u64, task: u32, cpu: u8) -> Result<(), NoMemory>
    ensures { OnOk result (text.new ≡ text.old ++ (codes " " ++ decimal offset ++ codes " " ++ decimal task ++ codes " " ++ decimal cpu)) }
{
    text.push(b" ")?;
    text.push_decimal(offset)?;
    text.push(b" ")?;
    text.push_decimal(u64::from(task))?;
    text.push(b" ")?;
    text.push_decimal(u64::from(cpu))
}

/// Adds the canonical text of an op to a text that grows. An error is out of memory, after which a part of it may have been added.
pub fn push_op_text(text: &mut GrowingText, names: &Names, op: &Op) -> Result<(), NoMemory>
    requires { AreKnown (length names.now) (op_ids op.now) }
    ensures { OnOk result (text.new ≡ text.old ++ op_text names.now op.now) }
{
    match op {
        Op::Mkdir { path } => push_command(text, b"mkdir ", names, *path),
        Op::Rmdir { path } => push_command(text, b"rmdir ", names, *path),
        Op::Write {
            path,
            text: written,
        } => push_write(text, names, *path, written.as_slice()),
        Op::Read { path } => push_command(text, b"read ", names, *path),
        Op::List { path } => push_command(text, b"list ", names, *path),
        Op::Flush { domain } => push_flush(text, names, *domain),
        Op::Tick => text.push(b"tick"),
        Op::Access { task, cpu, addr } => push_access(text, names, *task, *cpu, *addr),
        Op::Touch {
            path,
            offset,
            task,
            cpu,
        } => {
            push_command(text, b"touch ", names, *path)?;
            push_use(text, *offset, *task, *cpu)
        }
        Op::DropLine { addr } => {
            text.push(b"clflush ")?;
            text.push_decimal(*addr)
        }
        Op::DropRegion { path, offset } => {
            push_command(text, b"clflush ", names, *path)?;
            text.push(b" ")?;
            text.push_decimal(*offset)
        }
    }
}

/// Adds the canonical text of an op, which a line of a script may be: its words with one space between, numbers in decimal,
/// and the escapes of a written text (this project's profile). An error is out of memory, and then nothing is added.
pub fn push_op(alloc: Global, op: &Op, names: &Names, out: &mut Vec<u8>) -> Result<(), NoMemory>
    requires { AreKnown (length names.now) (op_ids op.now) }
    ensures ok { OnOk result (out.new.items ≡ out.old.items ++ op_text names.now op.now) }
    ensures err { OnErr result (out.new.items ≡ out.old.items) }
{
    let mut text = GrowingText::create(alloc)?;
    push_op_text(&mut text, names, op)?;
    match out.extend_from_slice(text.bytes()) {
        Ok(()) => Ok(()),
        Err(_) => Err(NoMemory),
    }
}
