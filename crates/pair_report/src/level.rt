//! The report of a run with two levels.
ghost use Rattle.std.specs.Prelude.{◌≡◌, ◌<◌, ◌∷◌, ◌++◌, IfOk, OnOk, length, map};
ghost use Rattle.std.specs.List.{flat_map, range_with_len};
ghost use Rattle.pair_windows.specs.JointWindows.{joint_windows};
ghost use Rattle.pair_windows.specs.LevelJournals.{IsPlayedOnLevels, journals_in};
ghost use Rattle.machine.specs.Maps.{parameters_of};
ghost use Rattle.pair_text.specs.Values.{side_machine};
ghost use Rattle.pair_text.specs.declared.side.Side.TheVariants.{First, Second};
ghost use Rattle.pair_report.specs.CountedCaches.{HasTally, HasValid, histories_of};
ghost use Rattle.pair_report.specs.LevelReport.{domain_lines, group_line, level_domain_line, level_report_of, level_word};
ghost use Rattle.pair_report.specs.LinesBefore.{group_made};
ghost use Rattle.pair_report.specs.MadeGroups.{default_path, groups_of};

use crate::caches::counts_on;
use crate::commands::push_commands;
use crate::counted_caches::CountedCaches;
use crate::counts::push_total;
use crate::domains::push_domain;
use crate::level_groups::push_groups;
use crate::level_window_lines::push_windows;
use crate::made::{MadeGroup, made_groups};
use machine::Machine;
use num_text::GrowingText;
use pair_text::{PairScript, Side};
use pair_windows::{JointWindow, LevelJournalsRef, machine_on};
use rc_base::NoMemory;
use std::alloc::Global;

// The level that a side is.
fn level_word(side: Side) -> &'static [u8]
    ensures { result.now ≡ level_word side }
{
    match side {
        Side::First => b"l2",
        Side::Second => b"l3",
    }
}

// Adds the line of a domain of a level.
#[tactic(auto, unfolding(crate::specs::LevelReport::level_domain_line))]
fn push_level_domain(
    report: &mut GrowingText,
    side: Side,
    machine: &Machine,
    caches: &CountedCaches<'_>,
    domain: u8,
) -> Result<(), NoMemory>
    requires counts { HasValid (parameters_of machine.now) caches.now }
    requires domain { domain < length caches.now.entries.now }
    ensures { OnOk result (report.new ≡ report.old ++ level_domain_line side (parameters_of machine.now) (histories_of caches.now) domain) }
{
    report.push(level_word(side))?;
    report.push(b" ".as_slice())?;
    push_domain(report, machine, caches.entries, caches.counts, domain)
}

// Adds the lines of the domains of a level.
fn push_domains(
    report: &mut GrowingText,
    script: &PairScript,
    side: Side,
    caches: &CountedCaches<'_>,
) -> Result<(), NoMemory>
    requires counts { HasValid (side_machine script.now.machines side) caches.now }
    requires one_each { length caches.now.entries.now ≡ (side_machine script.now.machines side).domains }
    ensures { OnOk result (report.new ≡ report.old
        ++ flat_map (level_domain_line side (side_machine script.now.machines side) (histories_of caches.now)) (range_with_len 0 (side_machine script.now.machines side).domains)) }
{
    let machine = machine_on(script, side);
    for domain in 0..machine.domains {
        push_level_domain(report, side, machine, caches, domain)?;
    }
    Ok(())
}

// Adds the lines of the groups, of which these were made, and of the domains of both levels, by what is counted in each.
fn push_lines(
    report: &mut GrowingText,
    script: &PairScript,
    l2: &CountedCaches<'_>,
    l3: &CountedCaches<'_>,
    made: &[MadeGroup],
) -> Result<(), NoMemory>
    requires l2_each { length l2.now.entries.now ≡ (side_machine script.now.machines First).domains }
    requires l3_each { length l3.now.entries.now ≡ (side_machine script.now.machines Second).domains }
    requires l2_tally { HasTally l2.now }
    requires l3_tally { HasTally l3.now }
    requires l2_valid { HasValid (side_machine script.now.machines First) l2.now }
    requires l3_valid { HasValid (side_machine script.now.machines Second) l3.now }
    ensures { OnOk result (report.new ≡ report.old ++ (flat_map (group_line (histories_of l2.now) (histories_of l3.now)) (default_path ∷ map (group_made script.now) made.now)
        ++ flat_map (level_domain_line First (side_machine script.now.machines First) (histories_of l2.now)) (range_with_len 0 (side_machine script.now.machines First).domains)
        ++ flat_map (level_domain_line Second (side_machine script.now.machines Second) (histories_of l3.now)) (range_with_len 0 (side_machine script.now.machines Second).domains))) }
{
    push_groups(report, script, l2, l3, made)?;
    push_domains(report, script, Side::First, l2)?;
    push_domains(report, script, Side::Second, l3)
}

// Adds the lines of the groups and of the domains of both levels.
fn push_counted(
    alloc: Global,
    report: &mut GrowingText,
    script: &PairScript,
    journals: &LevelJournalsRef<'_>,
) -> Result<(), NoMemory>
    requires { IsPlayedOnLevels script.now (journals_in journals.now) }
    ensures { OnOk result (report.new ≡ report.old ++ (flat_map (group_line (journals_in journals.now).l2 (journals_in journals.now).l3) (groups_of script.now journals.now.replies.now)
        ++ domain_lines script.now (journals_in journals.now) First ++ domain_lines script.now (journals_in journals.now) Second)) }
{
    let made = made_groups(alloc, script, journals.replies)?;
    let first = counts_on(alloc, script, Side::First, journals.l2)?;
    let second = counts_on(alloc, script, Side::Second, journals.l3)?;
    let l2 = CountedCaches {
        entries: journals.l2,
        counts: &first,
    };
    let l3 = CountedCaches {
        entries: journals.l3,
        counts: &second,
    };
    push_lines(report, script, &l2, &l3, &made)
}

/// The report of a run with two levels and these windows of it (this project's profile): a line for each command, with what an
/// accepted read gave, unless it is to be quiet; a line for each window in which a group uses lines; a line for each group that ever
/// was and for each domain of each level, and a last line. Every number is counted from the entries.
#[tactic(auto, unfolding(crate::specs::LevelReport::level_report_of))]
pub fn level_report(
    alloc: Global,
    script: &PairScript,
    journals: &LevelJournalsRef<'_>,
    windows: &[JointWindow],
    quiet: bool,
) -> Result<Vec<u8>, NoMemory>
    requires played { IsPlayedOnLevels script.now (journals_in journals.now) }
    requires windows { windows.now ≡ joint_windows script.now (journals_in journals.now) }
    ensures { IfOk result (λ bytes. bytes.items ≡ level_report_of script.now (journals_in journals.now) quiet) }
{
    let mut report = GrowingText::create(alloc)?;
    push_commands(alloc, &mut report, script, journals.replies, quiet)?;
    push_windows(&mut report, windows)?;
    push_counted(alloc, &mut report, script, journals)?;
    push_total(&mut report, journals.replies)?;
    Ok(report.into_bytes())
}
