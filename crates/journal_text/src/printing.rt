//! The text of journals.
ghost use Rattle.std.specs.Prelude.{◌≡◌, ◌++◌, IfOk, OnOk, length, map};
ghost use Rattle.journal_text.specs.Lines.{command_line, entry_line, journal_text, lines_from, slice_lines, text_of};
ghost use Rattle.machine.specs.Maps.{parameters_of};
ghost use Rattle.machine.specs.Slices.{slice_count};
ghost use Rattle.run_law.specs.Entries.{entry_value};

use crate::pushing::{push_command, push_entry, push_line};
use cache_core::SliceEntry;
use machine::Machine;
use num_text::GrowingText;
use rc_base::NoMemory;
use run_law::{Journals, TreeEntry};
use std::alloc::Global;

// Adds the lines of commands.
fn push_commands(text: &mut GrowingText, tree: &[TreeEntry]) -> Result<(), NoMemory>
    ensures { OnOk result (text.new ≡ text.old ++ text_of (map command_line (map entry_value tree.now))) }
{
    for entry in tree {
        push_command(text, entry)?;
    }
    Ok(())
}

// Adds the lines of entries.
fn push_entries(text: &mut GrowingText, entries: &[SliceEntry]) -> Result<(), NoMemory>
    ensures { OnOk result (text.new ≡ text.old ++ text_of (map entry_line entries.now)) }
{
    for entry in entries {
        push_entry(text, entry)?;
        text.push(b"\n")?;
    }
    Ok(())
}

// Adds the lines of a slice.
fn push_slice(
    text: &mut GrowingText,
    machine: &Machine,
    slice: u32,
    entries: &[SliceEntry],
) -> Result<(), NoMemory>
    ensures { OnOk result (text.new ≡ text.old ++ text_of (slice_lines (parameters_of machine.now) slice entries.now)) }
{
    let slices = u32::from(machine.slices);
    push_line(
        text,
        b"slice",
        &[
            u64::from(slice / slices),
            u64::from(slice % slices),
            entries.len() as u64,
        ],
    )?;
    text.push(b"\n")?;
    push_entries(text, entries)
}

// Adds the lines of all slices.
fn push_slices(
    text: &mut GrowingText,
    journals: &Journals,
    machine: &Machine,
) -> Result<(), NoMemory>
    requires { length journals.now.slices ≡ slice_count (parameters_of machine.now) }
    ensures { OnOk result (text.new ≡ text.old ++ text_of (lines_from (parameters_of machine.now) 0 journals.now.slices)) }
{
    for slice in 0..u32::from(machine.slice_count()) {
        push_slice(text, machine, slice, journals.slice(slice))?;
    }
    Ok(())
}

/// The text of journals, which have a list for each slice of the machine (this project's profile). It reads back where each number
/// in them is in its range.
pub fn print(alloc: Global, journals: &Journals, machine: &Machine) -> Result<Vec<u8>, NoMemory>
    requires { length journals.now.slices ≡ slice_count (parameters_of machine.now) }
    ensures { IfOk result (λ text. text.items ≡ journal_text (parameters_of machine.now) journals.now) }
{
    let mut text = GrowingText::create(alloc)?;
    text.push(b"journal 1\n")?;
    push_commands(&mut text, journals.tree())?;
    push_slices(&mut text, journals, machine)?;
    text.push(b"end\n")?;
    Ok(text.into_bytes())
}
