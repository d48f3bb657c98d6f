//! The values of slices.
ghost use Rattle.std.specs.Prelude.{◌≡◌, ◌<◌, ◌++◌, OnOk, false, length, nat_lt, true};
ghost use Rattle.json_report.specs.Pieces.{items_told, members_told};
ghost use Rattle.json_report.specs.SliceValues.{journal_part};
ghost use Rattle.json_report.specs.SliceValues.{entry_values, slice_members, slice_value, slice_values};
ghost use Rattle.json_report.specs.Values.{array_of};
ghost use Rattle.machine.specs.Maps.{parameters_of};
ghost use Rattle.machine.specs.Slices.{slice_count};
ghost use Rattle.report_pieces.specs.EntryTexts.{entry_text};
ghost use Rattle.serde_json.specs.Data.{string};
ghost use Rattle.serde_json.specs.Written.{comma_if, compact_text};

use crate::members::{push_comma, push_key, push_number};
use cache_core::SliceEntry;
use machine::Machine;
use num_text::GrowingText;
use rc_base::NoMemory;
use report_pieces::push_entry_text;
use run_counts::slices_of;
use run_law::Journals;
use script_ops::Script;

// Adds an entry at a position. Its text has no byte that would have to be escaped.
fn push_entry(
    report: &mut GrowingText,
    machine: &Machine,
    p: u64,
    entry: &SliceEntry,
) -> Result<(), NoMemory>
    ensures { OnOk result (report.new ≡ report.old ++ compact_text (string (entry_text (parameters_of machine.now) p entry.now))) }
{
    report.push(b"\"".as_slice())?;
    push_entry_text(report, machine, p, entry)?;
    report.push(b"\"".as_slice())
}

// Adds an entry, after a comma where others stand before.
fn push_item(
    report: &mut GrowingText,
    machine: &Machine,
    p: u64,
    later: bool,
    entry: &SliceEntry,
) -> Result<(), NoMemory>
    ensures { OnOk result (report.new ≡ report.old ++ (comma_if later ++ compact_text (string (entry_text (parameters_of machine.now) p entry.now)))) }
{
    push_comma(report, later)?;
    push_entry(report, machine, p, entry)
}

// Adds entries.
fn push_items(
    report: &mut GrowingText,
    machine: &Machine,
    entries: &[SliceEntry],
) -> Result<(), NoMemory>
    ensures { OnOk result (report.new ≡ report.old ++ items_told false (entry_values (parameters_of machine.now) 0 entries.now)) }
{
    for (p, entry) in entries.iter().enumerate() {
        push_item(report, machine, p as u64, p > 0, entry)?;
    }
    Ok(())
}

/// Adds a list of entries.
pub(crate) fn push_entries(
    report: &mut GrowingText,
    machine: &Machine,
    entries: &[SliceEntry],
) -> Result<(), NoMemory>
    ensures { OnOk result (report.new ≡ report.old ++ compact_text (array_of (entry_values (parameters_of machine.now) 0 entries.now))) }
{
    report.push(b"[".as_slice())?;
    push_items(report, machine, entries)?;
    report.push(b"]".as_slice())
}

// Adds the members of a slice, by its number over all domains.
fn push_members(
    report: &mut GrowingText,
    machine: &Machine,
    i: u32,
    entries: &[SliceEntry],
) -> Result<(), NoMemory>
    ensures { OnOk result (report.new ≡ report.old ++ members_told false (slice_members (parameters_of machine.now) i entries.now)) }
{
    let slices = u32::from(machine.slices);
    push_number(report, false, "domain", u64::from(i / slices))?;
    push_key(report, true, "entries")?;
    push_entries(report, machine, entries)?;
    push_number(report, true, "slice", u64::from(i % slices))
}

// Adds a slice, after a comma where others stand before.
#[tactic(auto, unfolding(crate::specs::SliceValues::slice_value))]
fn push_slice(
    report: &mut GrowingText,
    script: &Script,
    journals: &Journals,
    i: u32,
) -> Result<(), NoMemory>
    requires { i < length journals.now.slices }
    ensures { OnOk result (report.new ≡ report.old ++ (comma_if (nat_lt 0 i) ++ compact_text (slice_value script.now journals.now i))) }
{
    let entries = journals.slice(i);
    push_comma(report, i > 0)?;
    report.push(b"{".as_slice())?;
    push_members(report, script.machine(), i, entries)?;
    report.push(b"}".as_slice())
}

// Adds the slices.
fn push_slice_items(
    report: &mut GrowingText,
    script: &Script,
    journals: &Journals,
) -> Result<(), NoMemory>
    requires { length journals.now.slices ≡ slice_count script.now.machine }
    ensures { OnOk result (report.new ≡ report.old ++ items_told false (slice_values script.now journals.now)) }
{
    for i in 0..slices_of(script) {
        push_slice(report, script, journals, i)?;
    }
    Ok(())
}

// Adds the list of slices.
fn push_list(report: &mut GrowingText, script: &Script, journals: &Journals) -> Result<(), NoMemory>
    requires { length journals.now.slices ≡ slice_count script.now.machine }
    ensures { OnOk result (report.new ≡ report.old ++ compact_text (array_of (slice_values script.now journals.now))) }
{
    report.push(b"[".as_slice())?;
    push_slice_items(report, script, journals)?;
    report.push(b"]".as_slice())
}

/// Adds the entries of the slices, each as its line of the text report, where they are asked for.
pub fn push_journal_part(
    report: &mut GrowingText,
    asked: bool,
    script: &Script,
    journals: &Journals,
) -> Result<(), NoMemory>
    requires { length journals.now.slices ≡ slice_count script.now.machine }
    ensures { OnOk result (report.new ≡ report.old ++ members_told true (journal_part script.now journals.now asked)) }
{
    if !asked {
        return Ok(());
    }
    push_key(report, true, "journal")?;
    push_list(report, script, journals)
}
