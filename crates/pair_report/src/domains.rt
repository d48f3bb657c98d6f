//! The lines of domains.
ghost use Rattle.std.specs.Prelude.{◌≡◌, ◌<◌, ◌++◌, OnOk, length, map};
ghost use Rattle.machine.specs.Maps.{parameters_of};
ghost use Rattle.pair_report.specs.PairCounts.{domain_line, domain_told};
ghost use Rattle.run_counts.specs.CacheCounts.{valid_in};
ghost use Rattle.run_law.specs.Entries.{entries_of};

use cache_core::SliceEntry;
use machine::Machine;
use num_text::GrowingText;
use rc_base::NoMemory;
use run_counts::CacheCounts;

// Adds the number of a domain, how many lines are valid in its cache, and how many there can be.
fn push_valid(
    report: &mut GrowingText,
    machine: &Machine,
    domain: u8,
    valid: u64,
) -> Result<(), NoMemory>
    ensures { OnOk result (report.new ≡ report.old ++ domain_told (parameters_of machine.now) domain valid) }
{
    report.push_number(b"domain ".as_slice(), u64::from(domain))?;
    report.push_number(b": valid ".as_slice(), valid)?;
    report.push_number(
        b" of ".as_slice(),
        u64::from(machine.sets) * u64::from(machine.ways),
    )?;
    report.push(b"\n".as_slice())
}

/// Adds the line of a domain, whose cache is one of these of this size, by what was counted in them.
pub(crate) fn push_domain(
    report: &mut GrowingText,
    machine: &Machine,
    caches: &[Vec<SliceEntry>],
    counts: &CacheCounts,
    domain: u8,
) -> Result<(), NoMemory>
    requires counts { counts.now.valid ≡ valid_in (parameters_of machine.now) (map entries_of caches.now) }
    requires domain { domain < length caches.now }
    ensures { OnOk result (report.new ≡ report.old ++ domain_line (parameters_of machine.now) (map entries_of caches.now) domain) }
{
    push_valid(report, machine, domain, counts.valid(domain))
}
