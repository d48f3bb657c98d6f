//! The values of domains.
ghost use Rattle.std.specs.Prelude.{◌≡◌, ◌*◌, ◌++◌, ◌∷◌, [], IfOk, OnOk, codes, false, length, map};
ghost use Rattle.json_report.specs.Domains.{domain_of_counts, domain_values, rmid_value, rmid_values};
ghost use Rattle.json_report.specs.Pieces.{items_told, members_told};
ghost use Rattle.json_report.specs.Values.{array_of, object_of, whole};
ghost use Rattle.run_counts.specs.DomainLines.{lines_in};
ghost use Rattle.run_counts.specs.RunCounts.{AreCountsOf};
ghost use Rattle.serde_json.specs.View.{view};
ghost use Rattle.serde_json.specs.Written.{compact_text};

use crate::members::{push_comma, push_key, push_value};
use machine::Machine;
use num_text::GrowingText;
use rc_base::NoMemory;
use run_counts::{DomainLines, RunCounts};
use run_replay::Run;
use serde_json::{Value, json};
use std::alloc::{AllocError, Global};

// The value of an RMID with lines.
fn rmid_of(alloc: Global, rmid: u16, lines: u64) -> Result<Value, AllocError>
    ensures { IfOk result (λ v. view v ≡ object_of ((codes "lines", whole lines) ∷ (codes "rmid", whole rmid) ∷ [])) }
{
    json!(in alloc; {"lines": lines, "rmid": rmid})
}

// Adds an RMID, where it has lines.
fn add_rmid(alloc: Global, all: &mut Vec<Value>, rmid: u16, lines: u64) -> Result<(), AllocError>
    ensures { OnOk result (map view all.new.items ≡ map view all.old.items ++ rmid_value rmid lines) }
{
    if lines == 0 {
        return Ok(());
    }
    let value = rmid_of(alloc, rmid, lines)?;
    serde_json::push(all, value)
}

// The RMIDs with lines.
fn rmids_of(alloc: Global, machine: &Machine, lines: &DomainLines) -> Result<Vec<Value>, AllocError>
    requires { length lines.now.counts ≡ machine.now.rmids }
    ensures { IfOk result (λ all. map view all.items ≡ rmid_values machine.now.rmids (lines_in lines.now)) }
{
    let mut all = Vec::new(alloc);
    for rmid in 0..machine.rmids {
        add_rmid(alloc, &mut all, rmid, lines.lines(rmid))?;
    }
    Ok(all)
}

// The value of a domain whose RMIDs with lines are these.
#[tactic(auto, unfolding(crate::specs::Domains::domain_of_counts))]
fn value_of(
    alloc: Global,
    domain: u8,
    places: u64,
    rmids: Vec<Value>,
    valid: u64,
) -> Result<Value, AllocError>
    ensures { IfOk result (λ v. view v ≡ domain_of_counts domain places (map view rmids.items) valid) }
{
    let rmids = Value::Array(rmids);
    json!(in alloc; {"domain": domain, "places": places, "rmids": rmids, "valid": valid})
}

// Adds the value of a domain whose lines were counted.
fn push_domain(
    alloc: Global,
    report: &mut GrowingText,
    machine: &Machine,
    domain: u8,
    lines: &DomainLines,
) -> Result<(), NoMemory>
    requires { length lines.now.counts ≡ machine.now.rmids }
    ensures { OnOk result (report.new ≡ report.old ++ compact_text (domain_of_counts domain (machine.now.sets * machine.now.ways) (rmid_values machine.now.rmids (lines_in lines.now)) lines.now.valid)) }
{
    let places = u64::from(machine.sets) * u64::from(machine.ways);
    let rmids = rmids_of(alloc, machine, lines)?;
    let value = value_of(alloc, domain, places, rmids, lines.valid())?;
    push_value(alloc, report, &value)
}

// Adds the domains.
fn push_items(
    alloc: Global,
    report: &mut GrowingText,
    run: &Run<'_>,
    counts: &RunCounts,
) -> Result<(), NoMemory>
    requires { AreCountsOf run.now.script.now run.now.journals.now counts.now }
    ensures { OnOk result (report.new ≡ report.old ++ items_told false (domain_values run.now.script.now run.now.journals.now)) }
{
    for domain in 0..run.script.machine().domains {
        let lines = counts.domain(domain);
        push_comma(report, domain > 0)?;
        push_domain(alloc, report, run.script.machine(), domain, lines)?;
    }
    Ok(())
}

/// Adds the domains with the lines that are in their slices at the end of the run, as they were counted, after a comma where
/// something stands before.
pub fn push_domains(
    alloc: Global,
    report: &mut GrowingText,
    later: bool,
    run: &Run<'_>,
    counts: &RunCounts,
) -> Result<(), NoMemory>
    requires { AreCountsOf run.now.script.now run.now.journals.now counts.now }
    ensures { OnOk result (report.new ≡ report.old ++ members_told later ((codes "domains", array_of (domain_values run.now.script.now run.now.journals.now)) ∷ [])) }
{
    push_key(report, later, "domains")?;
    report.push(b"[".as_slice())?;
    push_items(alloc, report, run, counts)?;
    report.push(b"]".as_slice())
}
