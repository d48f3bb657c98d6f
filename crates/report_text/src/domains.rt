//! The lines of domains.
ghost use Rattle.std.specs.Prelude.{◌≡◌, ◌++◌, OnOk, length};
ghost use Rattle.std.specs.List.{flat_map, range_with_len};
ghost use Rattle.machine.specs.Maps.{parameters_of};
ghost use Rattle.run_counts.specs.DomainLines.{lines_in};
ghost use Rattle.run_counts.specs.RunCounts.{AreCountsOf};
ghost use Rattle.report_text.specs.Domains.{domain_line, domain_told, rmid_text, rmids_told};

use machine::Machine;
use num_text::GrowingText;
use rc_base::NoMemory;
use run_counts::{DomainLines, RunCounts};
use run_law::Journals;
use script_ops::Script;

// Adds an RMID with its lines, where it has some.
fn push_rmid(report: &mut GrowingText, rmid: u16, lines: u64) -> Result<(), NoMemory>
    ensures { OnOk result (report.new ≡ report.old ++ rmid_text rmid lines) }
{
    if lines == 0 {
        return Ok(());
    }
    report.push(b", rmid ".as_slice())?;
    report.push_decimal(u64::from(rmid))?;
    report.push(b" ".as_slice())?;
    report.push_decimal(lines)
}

// Adds each RMID with lines.
fn push_rmids(
    report: &mut GrowingText,
    machine: &Machine,
    lines: &DomainLines,
) -> Result<(), NoMemory>
    requires { length lines.now.counts ≡ machine.now.rmids }
    ensures { OnOk result (report.new ≡ report.old ++ rmids_told machine.now.rmids (lines_in lines.now)) }
{
    for rmid in 0..machine.rmids {
        push_rmid(report, rmid, lines.lines(rmid))?;
    }
    Ok(())
}

// Adds the line of a domain.
fn push_domain(
    report: &mut GrowingText,
    machine: &Machine,
    domain: u8,
    lines: &DomainLines,
) -> Result<(), NoMemory>
    requires { length lines.now.counts ≡ machine.now.rmids }
    ensures { OnOk result (report.new ≡ report.old ++ domain_told (parameters_of machine.now) domain lines.now.valid (lines_in lines.now)) }
{
    report.push(b"domain ".as_slice())?;
    report.push_decimal(u64::from(domain))?;
    report.push(b": valid ".as_slice())?;
    report.push_decimal(lines.valid())?;
    report.push(b" of ".as_slice())?;
    report.push_decimal(u64::from(machine.sets) * u64::from(machine.ways))?;
    push_rmids(report, machine, lines)?;
    report.push(b"\n".as_slice())
}

/// Adds the lines of the domains: what their slices hold at the end of the run, as it was counted.
pub fn push_domains(
    report: &mut GrowingText,
    script: &Script,
    journals: &Journals,
    counts: &RunCounts,
) -> Result<(), NoMemory>
    requires { AreCountsOf script.now journals.now counts.now }
    ensures { OnOk result (report.new ≡ report.old ++ flat_map (domain_line script.now journals.now) (range_with_len 0 script.now.machine.domains)) }
{
    for domain in 0..script.machine().domains {
        let lines = counts.domain(domain);
        push_domain(report, script.machine(), domain, lines)?;
    }
    Ok(())
}
