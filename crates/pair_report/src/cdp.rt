//! The report of a run with code and data prioritization.
ghost use Rattle.std.specs.Prelude.{◌≡◌, ◌<◌, ◌^◌, ◌∷◌, ◌++◌, All, IfOk, OnOk, length, map};
ghost use Rattle.std.specs.List.{flat_map, range_with_len};
ghost use Rattle.pair_text.specs.declared.side.Side.TheVariants.{Second};
ghost use Rattle.pair_report.specs.CdpReport.{cdp_report_of, group_line, window_line};
ghost use Rattle.pair_report.specs.LinesBefore.{group_made};
ghost use Rattle.pair_report.specs.MadeGroups.{default_path, groups_of};
ghost use Rattle.pair_report.specs.PairCounts.{domain_line};
ghost use Rattle.pair_report.specs.declared.made.MadeGroup.{MadeGroup as MadeGroupValue};
ghost use Rattle.pair_windows.specs.CdpJournals.{IsPlayed, cdp_journals};
ghost use Rattle.pair_windows.specs.CdpWindows.{cdp_windows};
ghost use Rattle.run_counts.specs.CacheCounts.{slices_alone, valid_in};
ghost use Rattle.run_counts.specs.Tallies.{IsTallyOf};
ghost use Rattle.run_law.specs.Entries.{entries_of};

use crate::caches::counts_on;
use crate::cdp_groups::push_groups;
use crate::cdp_window_lines::push_windows;
use crate::commands::push_commands;
use crate::counts::push_total;
use crate::domains::push_domain;
use crate::made::{MadeGroup, made_groups};
use cache_core::SliceEntry;
use num_text::GrowingText;
use pair_text::{PairScript, Side};
use pair_windows::cdp_windows;
use rc_base::{NoMemory, Reply};
use run_counts::CacheCounts;
use std::alloc::Global;

// Adds the lines of the domains.
fn push_domains(
    report: &mut GrowingText,
    script: &PairScript,
    slices: &[Vec<SliceEntry>],
    counts: &CacheCounts,
) -> Result<(), NoMemory>
    requires counts { counts.now.valid ≡ valid_in script.now.machines.machine (map entries_of slices.now) }
    requires one_each { length slices.now ≡ script.now.machines.machine.domains }
    ensures { OnOk result (report.new ≡ report.old ++ flat_map (domain_line script.now.machines.machine (map entries_of slices.now)) (range_with_len 0 script.now.machines.machine.domains)) }
{
    let machine = script.machine();
    for domain in 0..machine.domains {
        push_domain(report, machine, slices, counts, domain)?;
    }
    Ok(())
}

// Adds the lines of the groups, of which these were made, and of the domains, by what is counted.
fn push_lines(
    report: &mut GrowingText,
    script: &PairScript,
    slices: &[Vec<SliceEntry>],
    made: &[MadeGroup],
    counts: &CacheCounts,
) -> Result<(), NoMemory>
    requires one_each { length slices.now ≡ script.now.machines.machine.domains }
    requires small { All (λ (m : MadeGroupValue). m.gid < 2 ^ 31) made.now }
    requires tally { IsTallyOf (slices_alone (map entries_of slices.now)) (length (map entries_of slices.now)) counts.now.tally }
    requires valid { counts.now.valid ≡ valid_in script.now.machines.machine (map entries_of slices.now) }
    ensures { OnOk result (report.new ≡ report.old ++ (flat_map (group_line (map entries_of slices.now)) (default_path ∷ map (group_made script.now) made.now)
        ++ flat_map (domain_line script.now.machines.machine (map entries_of slices.now)) (range_with_len 0 script.now.machines.machine.domains))) }
{
    push_groups(report, script, slices, made, counts.tally())?;
    push_domains(report, script, slices, counts)
}

// Adds the lines of the groups and of the domains.
fn push_counted(
    alloc: Global,
    report: &mut GrowingText,
    script: &PairScript,
    replies: &[Reply],
    slices: &[Vec<SliceEntry>],
) -> Result<(), NoMemory>
    requires { IsPlayed script.now (cdp_journals replies.now slices.now) }
    ensures { OnOk result (report.new ≡ report.old ++ (flat_map (group_line (map entries_of slices.now)) (groups_of script.now replies.now)
        ++ flat_map (domain_line script.now.machines.machine (map entries_of slices.now)) (range_with_len 0 script.now.machines.machine.domains))) }
{
    let made = made_groups(alloc, script, replies)?;
    let counts = counts_on(alloc, script, Side::Second, slices)?;
    push_lines(report, script, slices, &made, &counts)
}

// Adds the lines of the windows.
fn push_found_windows(
    alloc: Global,
    report: &mut GrowingText,
    script: &PairScript,
    replies: &[Reply],
    slices: &[Vec<SliceEntry>],
) -> Result<(), NoMemory>
    requires { IsPlayed script.now (cdp_journals replies.now slices.now) }
    ensures { OnOk result (report.new ≡ report.old ++ flat_map window_line (cdp_windows script.now (cdp_journals replies.now slices.now))) }
{
    let windows = cdp_windows(alloc, script, replies, slices)?;
    push_windows(report, &windows)
}

/// The report of a run with code and data prioritization (this project's profile): a line for each command, with what an accepted
/// read gave, unless it is to be quiet; a line for each window in which a side of a group uses lines; a line for each group that ever
/// was and for each domain, and a last line. Every number is counted from the entries.
///
/// `replies` are those to the commands of the script, in order, and `slices` the entries of each domain's cache.
#[tactic(auto, unfolding(crate::specs::CdpReport::cdp_report_of))]
pub fn cdp_report(
    alloc: Global,
    script: &PairScript,
    replies: &[Reply],
    slices: &[Vec<SliceEntry>],
    quiet: bool,
) -> Result<Vec<u8>, NoMemory>
    requires { IsPlayed script.now (cdp_journals replies.now slices.now) }
    ensures { IfOk result (λ bytes. bytes.items ≡ cdp_report_of script.now (cdp_journals replies.now slices.now) quiet) }
{
    let mut report = GrowingText::create(alloc)?;
    push_commands(alloc, &mut report, script, replies, quiet)?;
    push_found_windows(alloc, &mut report, script, replies, slices)?;
    push_counted(alloc, &mut report, script, replies, slices)?;
    push_total(&mut report, replies)?;
    Ok(report.into_bytes())
}
