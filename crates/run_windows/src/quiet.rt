//! Runs of which no command asks that a group be exclusive.
ghost use Rattle.std.specs.Prelude.{◌≡◌};
ghost use Rattle.std.specs.List.{list_any};
ghost use Rattle.run_law.specs.Entries.{entry_value};
ghost use Rattle.run_law.specs.declared.journals.TreeEntry.{TreeEntry};
ghost use Rattle.run_windows.specs.Quiet.{asks_exclusive, asks_in, is_exclusive_text};

use command_parts::is_named;
use path_names::{FileKind, PathRef};
use rc_base::Mode;
use run_law::{Journals, TreeEntry};
use script_ops::{Op, Script};

// Whether a text that is written to a file asks for the mode exclusive.
fn is_exclusive_text(path: PathRef, text: &[u8]) -> bool
    ensures { result ≡ is_exclusive_text path text.now }
{
    match path {
        PathRef::File(_, FileKind::Mode) => is_named(text, Mode::Exclusive),
        _ => false,
    }
}

// Whether a command asks that a group be exclusive.
fn asks_exclusive(op: &Op) -> bool
    ensures { result ≡ asks_exclusive op.now }
{
    match op {
        Op::Write { path, text } => is_exclusive_text(*path, text.as_slice()),
        _ => false,
    }
}

// Whether the command of an entry does.
fn asks_in(script: &Script, entry: &TreeEntry) -> bool
    ensures { result ≡ asks_in script.now (entry_value entry.now) }
{
    match script.op(entry.thread, entry.op) {
        Some(op) => asks_exclusive(op.get()),
        None => false,
    }
}

// Whether the command of one of these entries does.
fn has_asking(script: &Script, entries: &[TreeEntry]) -> bool
    ensures { result ≡ list_any (λ (e : TreeEntry). asks_in script.now (entry_value e)) entries.now }
{
    entries.iter().any(|entry| asks_in(script, entry))
}

/// Whether a command of a run asks that a group be exclusive. Where none does, no group ever is, and the run has no windows
/// (kernel documentation, resctrl, section "mode": a group is exclusive by a write alone).
pub fn has_exclusive_write(script: &Script, journals: &Journals) -> bool
    ensures { result ≡ list_any (asks_in script.now) journals.now.tree }
{
    has_asking(script, journals.tree())
}
