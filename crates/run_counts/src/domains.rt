//! The slices of domains, and a walk over those of a domain.
ghost use Rattle.std.specs.Prelude.{◌≡◌, ◌+◌, ◌*◌, ◌<◌, ◌≤◌, length, OnOk};
ghost use Rattle.machine.specs.Slices.{slice_count, slice_number};
ghost use Rattle.run_counts.specs.Occupancies.{HasCountedDomain, Suits};
ghost use Rattle.run_counts.specs.Tallies.{HasTallied};

use crate::walk::Walk;
use rc_base::NoMemory;
use run_law::Journals;
use script_ops::Script;

/// How many slices there are, over all domains.
pub fn slices_of(script: &Script) -> u32
    ensures slices { result ≡ slice_count script.now.machine }
    ensures few { result ≤ 32 }
{
    u32::from(script.machine().slice_count())
}

/// The number of a slice over all domains.
pub fn number_of(script: &Script, domain: u8, slice: u8) -> u32
    requires domain { domain < script.now.machine.domains }
    requires slice { slice < script.now.machine.slices }
    ensures number { result ≡ slice_number script.now.machine domain slice }
    ensures within { result < slice_count script.now.machine }
    ensures few { result < 32 }
{
    // There are few slices, and so a slice's number fits.
    let _few = slices_of(script);
    script.machine().slice_number(domain, slice) as u32
}

/// Counts the entries of a domain, after those of the domains before it. Of their lines it counts those of this domain alone.
pub(crate) fn count_domain(
    walk: &mut Walk,
    script: &Script,
    journals: &Journals,
    domain: u8,
) -> Result<(), NoMemory>
    requires suits { Suits script.now.machine walk.old.lines }
    requires all { length journals.now.slices ≡ slice_count script.now.machine }
    requires domain { domain < script.now.machine.domains }
    requires tallied { HasTallied journals.now (domain * script.now.machine.slices) walk.old.tally.tally walk.old.tally.streak }
    ensures tallied { OnOk result (HasTallied journals.now ((domain + 1) * script.now.machine.slices) walk.new.tally.tally walk.new.tally.streak) }
    ensures lines { OnOk result (HasCountedDomain script.now journals.now domain walk.new.lines) }
{
    walk.lines.clear();
    for slice in 0..script.machine().slices {
        let i = number_of(script, domain, slice);
        walk.take_slice(script.machine(), i, journals.slice(i))?;
    }
    Ok(())
}
