//! The lines of slices: the entries of their journals.
ghost use Rattle.std.specs.Prelude.{◌≡◌, ◌<◌, ◌++◌, OnOk, length};
ghost use Rattle.machine.specs.Maps.{parameters_of};
ghost use Rattle.machine.specs.Slices.{slice_count};
ghost use Rattle.report_text.specs.SliceLines.{domain_slices, entry_lines, journal_part, slice_heading, slice_text, slices_text};

use cache_core::SliceEntry;
use machine::Machine;
use num_text::GrowingText;
use rc_base::NoMemory;
use report_pieces::push_entry_line;
use run_counts::number_of;
use run_law::Journals;
use script_ops::Script;

// Adds the name of a slice.
fn push_heading(report: &mut GrowingText, domain: u8, slice: u8) -> Result<(), NoMemory>
    ensures { OnOk result (report.new ≡ report.old ++ slice_heading domain slice) }
{
    report.push_number(b"slice ".as_slice(), u64::from(domain))?;
    report.push_number(b".".as_slice(), u64::from(slice))?;
    report.push(b"\n".as_slice())
}

// Adds the lines of entries.
fn push_entries(
    report: &mut GrowingText,
    machine: &Machine,
    entries: &[SliceEntry],
) -> Result<(), NoMemory>
    ensures { OnOk result (report.new ≡ report.old ++ entry_lines (parameters_of machine.now) 0 entries.now) }
{
    for (p, entry) in entries.iter().enumerate() {
        push_entry_line(report, machine, p as u64, entry)?;
    }
    Ok(())
}

// Adds the lines of a slice.
fn push_slice(
    report: &mut GrowingText,
    script: &Script,
    journals: &Journals,
    domain: u8,
    slice: u8,
) -> Result<(), NoMemory>
    requires all { length journals.now.slices ≡ slice_count script.now.machine }
    requires domain { domain < script.now.machine.domains }
    requires slice { slice < script.now.machine.slices }
    ensures { OnOk result (report.new ≡ report.old ++ slice_text script.now journals.now domain slice) }
{
    let entries = journals.slice(number_of(script, domain, slice));
    push_heading(report, domain, slice)?;
    push_entries(report, script.machine(), entries)
}

// Adds the lines of the slices of a domain.
fn push_domain_slices(
    report: &mut GrowingText,
    script: &Script,
    journals: &Journals,
    domain: u8,
) -> Result<(), NoMemory>
    requires all { length journals.now.slices ≡ slice_count script.now.machine }
    requires domain { domain < script.now.machine.domains }
    ensures { OnOk result (report.new ≡ report.old ++ domain_slices script.now journals.now domain) }
{
    for slice in 0..script.machine().slices {
        push_slice(report, script, journals, domain, slice)?;
    }
    Ok(())
}

// Adds the lines of all slices.
#[tactic(auto, unfolding(crate::specs::SliceLines::slices_text))]
fn push_slices(
    report: &mut GrowingText,
    script: &Script,
    journals: &Journals,
) -> Result<(), NoMemory>
    requires { length journals.now.slices ≡ slice_count script.now.machine }
    ensures { OnOk result (report.new ≡ report.old ++ slices_text script.now journals.now) }
{
    for domain in 0..script.machine().domains {
        push_domain_slices(report, script, journals, domain)?;
    }
    Ok(())
}

/// Adds the lines of all slices, one for each entry, where they are asked for.
pub fn push_journal(
    report: &mut GrowingText,
    asked: bool,
    script: &Script,
    journals: &Journals,
) -> Result<(), NoMemory>
    requires { length journals.now.slices ≡ slice_count script.now.machine }
    ensures { OnOk result (report.new ≡ report.old ++ journal_part script.now journals.now asked) }
{
    if !asked {
        return Ok(());
    }
    push_slices(report, script, journals)
}
