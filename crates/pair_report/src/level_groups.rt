//! The lines of groups of a run with two levels.
ghost use Rattle.std.specs.Prelude.{◌≡◌, ◌∷◌, ◌++◌, OnOk, codes, map};
ghost use Rattle.std.specs.List.{flat_map};
ghost use Rattle.pair_report.specs.CountedCaches.{HasTally, histories_of};
ghost use Rattle.pair_report.specs.LevelReport.{group_line};
ghost use Rattle.pair_report.specs.LinesBefore.{group_made};
ghost use Rattle.pair_report.specs.MadeGroups.{default_path};
ghost use Rattle.pair_report.specs.PairCounts.{owner_counts};

use crate::counted_caches::CountedCaches;
use crate::counts::push_sides;
use crate::groups::{push_gid, push_path};
use crate::made::MadeGroup;
use num_text::GrowingText;
use pair_text::PairScript;
use rc_base::NoMemory;

// Adds the counts of a group: those of the L2 caches and those of the L3 caches.
fn push_counts(
    report: &mut GrowingText,
    l2: &CountedCaches<'_>,
    l3: &CountedCaches<'_>,
    gid: u32,
) -> Result<(), NoMemory>
    requires l2 { HasTally l2.now }
    requires l3 { HasTally l3.now }
    ensures { OnOk result (report.new ≡ report.old ++ (codes ": l2 " ++ owner_counts (histories_of l2.now) gid
        ++ codes ", l3 " ++ owner_counts (histories_of l3.now) gid ++ codes "\n")) }
{
    let first = l2.counts.tally().of(gid);
    let second = l3.counts.tally().of(gid);
    push_sides(
        report,
        b": l2 ".as_slice(),
        first,
        b", l3 ".as_slice(),
        second,
    )
}

// Adds the line of a group with this directory.
#[tactic(auto, unfolding(crate::specs::LevelReport::group_line))]
fn push_group_at(
    report: &mut GrowingText,
    l2: &CountedCaches<'_>,
    l3: &CountedCaches<'_>,
    gid: u32,
    path: &[u8],
) -> Result<(), NoMemory>
    requires l2 { HasTally l2.now }
    requires l3 { HasTally l3.now }
    ensures { OnOk result (report.new ≡ report.old ++ group_line (histories_of l2.now) (histories_of l3.now) (record { gid = gid; path = path.now })) }
{
    push_gid(report, gid)?;
    report.push(path)?;
    push_counts(report, l2, l3, gid)
}

// Adds the line of a group that was made.
#[tactic(auto, unfolding(crate::specs::LevelReport::group_line))]
fn push_made_group(
    report: &mut GrowingText,
    script: &PairScript,
    l2: &CountedCaches<'_>,
    l3: &CountedCaches<'_>,
    made: MadeGroup,
) -> Result<(), NoMemory>
    requires l2 { HasTally l2.now }
    requires l3 { HasTally l3.now }
    ensures { OnOk result (report.new ≡ report.old ++ group_line (histories_of l2.now) (histories_of l3.now) (group_made script.now made)) }
{
    push_gid(report, made.gid)?;
    push_path(report, script, made.place)?;
    push_counts(report, l2, l3, made.gid)
}

// Adds the lines of the groups that were made.
fn push_made(
    report: &mut GrowingText,
    script: &PairScript,
    l2: &CountedCaches<'_>,
    l3: &CountedCaches<'_>,
    made: &[MadeGroup],
) -> Result<(), NoMemory>
    requires l2 { HasTally l2.now }
    requires l3 { HasTally l3.now }
    ensures { OnOk result (report.new ≡ report.old ++ flat_map (group_line (histories_of l2.now) (histories_of l3.now)) (map (group_made script.now) made.now)) }
{
    for group in made {
        push_made_group(report, script, l2, l3, *group)?;
    }
    Ok(())
}

/// Adds the lines of the groups that ever were: the default group, and those that were made.
pub(crate) fn push_groups(
    report: &mut GrowingText,
    script: &PairScript,
    l2: &CountedCaches<'_>,
    l3: &CountedCaches<'_>,
    made: &[MadeGroup],
) -> Result<(), NoMemory>
    requires l2 { HasTally l2.now }
    requires l3 { HasTally l3.now }
    ensures { OnOk result (report.new ≡ report.old ++ flat_map (group_line (histories_of l2.now) (histories_of l3.now)) (default_path ∷ map (group_made script.now) made.now)) }
{
    push_group_at(report, l2, l3, 0, b"/".as_slice())?;
    push_made(report, script, l2, l3, made)
}
