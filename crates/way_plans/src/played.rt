//! The misses of several groups as the script was played.
ghost use Rattle.std.specs.Prelude.{◌≡◌, ◌<◌, ◌≤◌, length};
ghost use Rattle.way_plans.specs.Comparisons.{is_miss_of, played_in, played_misses};
ghost use Rattle.run_law.specs.Runs.{IsRun};
ghost use Rattle.script_ops.specs.Values.{IsLawful};

use crate::shared_lines::is_of;
use crate::slice_lines::behind_emptied;
use cache_core::{SliceEntry, What};
use group_tree::Group;
use run_law::Journals;
use script_ops::Script;

// Whether this is an access of one of the groups that missed.
fn is_miss_of(groups: &[Group], what: What) -> bool
    ensures { result ≡ is_miss_of groups.now what }
{
    match what {
        What::Access { hit, owner, .. } => is_of(groups, owner) && !hit,
        _ => false,
    }
}

// How many accesses of the groups missed in a slice since it was last emptied.
fn played_in(groups: &[Group], entries: &[SliceEntry]) -> u64
    ensures misses { result ≡ played_in groups.now entries.now }
    ensures few { result ≤ length entries.now }
{
    let since = &entries[behind_emptied(entries)..];
    since
        .iter()
        .filter(|entry| is_miss_of(groups, entry.what))
        .count() as u64
}

/// How many accesses of the groups missed in a domain since its slices were last emptied, as the script was played.
pub(crate) fn played_misses(
    script: &Script,
    journals: &Journals,
    domain: u8,
    groups: &[Group],
) -> u64
    requires lawful { IsLawful script.now }
    requires run { IsRun script.now journals.now }
    requires domain { domain < script.now.machine.domains }
    ensures { result ≡ played_misses script.now.machine journals.now domain groups.now }
{
    let machine = script.machine();
    let mut misses = 0;
    for slice in 0..machine.slices {
        let number = u32::from(domain) * u32::from(machine.slices) + u32::from(slice);
        misses += played_in(groups, journals.slice(number));
    }
    misses
}
