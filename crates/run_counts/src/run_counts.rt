//! What is counted from the entries of a run.
ghost use Rattle.std.specs.Prelude.{◌≡◌, ◌*◌, ◌<◌, length, IfOk, OnOk};
ghost use Rattle.machine.specs.Slices.{slice_count};
ghost use Rattle.run_counts.specs.Occupancies.{Suits};
ghost use Rattle.run_counts.specs.RunCounts.{AreCountsOf, AreOfDomains};
ghost use Rattle.run_counts.specs.Tallies.{HasTallied};
ghost use Rattle.run_law.specs.Journals.{At};

use crate::domain_lines::DomainLines;
use crate::domains::{count_domain, slices_of};
use crate::tally::Tally;
use crate::walk::Walk;
use rc_base::NoMemory;
use run_law::Journals;
use script_ops::Script;
use std::alloc::Global;
use std::marker::Model;

/// The accesses, hits and misses of each group and of all groups of a run, and the lines of each domain at its end.
#[derive(Drop)]
pub struct RunCounts {
    tally: Tally,
    domains: Vec<DomainLines>,
}

impl Model for RunCounts {
    ghost use Rattle.run_counts.specs.RunCounts.{RunCountsValue};

    ghost Value = { RunCountsValue };

    ghost view = { λ c. record { tally = c.tally; domains = c.domains.items } };
}

// Counts the entries of all domains, one domain after the other, and returns the lines of each.
fn count_domains(
    alloc: Global,
    walk: &mut Walk,
    script: &Script,
    journals: &Journals,
) -> Result<Vec<DomainLines>, NoMemory>
    requires suits { Suits script.now.machine walk.old.lines }
    requires all { length journals.now.slices ≡ slice_count script.now.machine }
    requires tallied { HasTallied journals.now 0 walk.old.tally.tally walk.old.tally.streak }
    ensures tallied { OnOk result (HasTallied journals.now (slice_count script.now.machine) walk.new.tally.tally walk.new.tally.streak) }
    ensures lines { IfOk result (λ domains. AreOfDomains script.now journals.now script.now.machine.domains domains.items) }
{
    let mut domains = Vec::new(alloc);
    for domain in 0..script.machine().domains {
        count_domain(walk, script, journals, domain)?;
        let lines = walk.lines.told()?;
        domains.push(lines)?;
    }
    Ok(domains)
}

impl RunCounts {
    /// The counts of a run, by one walk over the entries of each slice.
    pub fn of(alloc: Global, script: &Script, journals: &Journals) -> Result<RunCounts, NoMemory>
        requires all { length journals.now.slices ≡ slice_count script.now.machine }
        ensures { IfOk result (λ c. AreCountsOf script.now journals.now c) }
    {
        // There are few slices, and so no count gets too great.
        let _few = slices_of(script);
        let mut walk = Walk::create(alloc, script.machine())?;
        let domains = count_domains(alloc, &mut walk, script, journals)?;
        let tally = walk.tally.finish()?;
        Ok(RunCounts { tally, domains })
    }

    /// The accesses, hits and misses of groups.
    pub fn tally(&self) -> &Tally
        ensures { result.now ≡ self.now.tally }
    {
        &self.tally
    }

    /// The lines of a domain.
    pub fn domain(&self, domain: u8) -> &DomainLines
        requires { domain < length self.now.domains }
        ensures { At self.now.domains domain result.now }
    {
        &self.domains[usize::from(domain)]
    }
}
