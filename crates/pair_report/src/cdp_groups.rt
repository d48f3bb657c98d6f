//! The lines of groups of a run with code and data prioritization.
ghost use Rattle.std.specs.Prelude.{◌≡◌, ◌<◌, ◌^◌, ◌∷◌, ◌++◌, All, OnOk, codes, length, map};
ghost use Rattle.std.specs.List.{flat_map};
ghost use Rattle.pair_law.specs.Registers.{register_of};
ghost use Rattle.pair_text.specs.declared.side.Side.TheVariants.{First, Second};
ghost use Rattle.pair_report.specs.CdpReport.{group_line};
ghost use Rattle.pair_report.specs.LinesBefore.{group_made};
ghost use Rattle.pair_report.specs.MadeGroups.{default_path};
ghost use Rattle.pair_report.specs.PairCounts.{owner_counts};
ghost use Rattle.pair_report.specs.declared.made.MadeGroup.{MadeGroup as MadeGroupValue};
ghost use Rattle.run_counts.specs.CacheCounts.{slices_alone};
ghost use Rattle.run_counts.specs.Tallies.{IsTallyOf};
ghost use Rattle.run_law.specs.Entries.{entries_of};

use crate::counts::push_sides;
use crate::groups::{push_gid, push_path};
use crate::made::MadeGroup;
use cache_core::SliceEntry;
use num_text::GrowingText;
use pair_text::PairScript;
use rc_base::NoMemory;
use run_counts::Tally;

// Adds the counts of two owners, those of data and of code of a group.
fn push_owners(
    report: &mut GrowingText,
    slices: &[Vec<SliceEntry>],
    tally: &Tally,
    first_owner: u32,
    second_owner: u32,
) -> Result<(), NoMemory>
    requires counts { IsTallyOf (slices_alone (map entries_of slices.now)) (length (map entries_of slices.now)) tally.now }
    ensures { OnOk result (report.new ≡ report.old ++ (codes ": data " ++ owner_counts (map entries_of slices.now) first_owner
        ++ codes ", code " ++ owner_counts (map entries_of slices.now) second_owner ++ codes "\n")) }
{
    let data = tally.of(first_owner);
    let code = tally.of(second_owner);
    push_sides(
        report,
        b": data ".as_slice(),
        data,
        b", code ".as_slice(),
        code,
    )
}

// Adds the counts of a group.
fn push_group_counts(
    report: &mut GrowingText,
    slices: &[Vec<SliceEntry>],
    tally: &Tally,
    gid: u32,
) -> Result<(), NoMemory>
    requires counts { IsTallyOf (slices_alone (map entries_of slices.now)) (length (map entries_of slices.now)) tally.now }
    requires small { gid < 2 ^ 31 }
    ensures { OnOk result (report.new ≡ report.old ++ (codes ": data " ++ owner_counts (map entries_of slices.now) (register_of gid First)
        ++ codes ", code " ++ owner_counts (map entries_of slices.now) (register_of gid Second) ++ codes "\n")) }
{
    push_owners(report, slices, tally, 2 * gid, 2 * gid + 1)
}

// Adds the line of a group with this directory.
#[tactic(auto, unfolding(crate::specs::CdpReport::group_line))]
fn push_group_at(
    report: &mut GrowingText,
    slices: &[Vec<SliceEntry>],
    tally: &Tally,
    gid: u32,
    path: &[u8],
) -> Result<(), NoMemory>
    requires counts { IsTallyOf (slices_alone (map entries_of slices.now)) (length (map entries_of slices.now)) tally.now }
    requires small { gid < 2 ^ 31 }
    ensures { OnOk result (report.new ≡ report.old ++ group_line (map entries_of slices.now) (record { gid = gid; path = path.now })) }
{
    push_gid(report, gid)?;
    report.push(path)?;
    push_group_counts(report, slices, tally, gid)
}

// Adds the line of a group that was made.
#[tactic(auto, unfolding(crate::specs::CdpReport::group_line))]
fn push_made_group(
    report: &mut GrowingText,
    script: &PairScript,
    slices: &[Vec<SliceEntry>],
    made: MadeGroup,
    tally: &Tally,
) -> Result<(), NoMemory>
    requires counts { IsTallyOf (slices_alone (map entries_of slices.now)) (length (map entries_of slices.now)) tally.now }
    requires small { made.gid < 2 ^ 31 }
    ensures { OnOk result (report.new ≡ report.old ++ group_line (map entries_of slices.now) (group_made script.now made)) }
{
    push_gid(report, made.gid)?;
    push_path(report, script, made.place)?;
    push_group_counts(report, slices, tally, made.gid)
}

// Adds the lines of the groups that were made.
fn push_made(
    report: &mut GrowingText,
    script: &PairScript,
    slices: &[Vec<SliceEntry>],
    made: &[MadeGroup],
    tally: &Tally,
) -> Result<(), NoMemory>
    requires counts { IsTallyOf (slices_alone (map entries_of slices.now)) (length (map entries_of slices.now)) tally.now }
    requires small { All (λ (m : MadeGroupValue). m.gid < 2 ^ 31) made.now }
    ensures { OnOk result (report.new ≡ report.old ++ flat_map (group_line (map entries_of slices.now)) (map (group_made script.now) made.now)) }
{
    for group in made {
        push_made_group(report, script, slices, *group, tally)?;
    }
    Ok(())
}

/// Adds the lines of the groups that ever were: the default group, and those that were made.
pub(crate) fn push_groups(
    report: &mut GrowingText,
    script: &PairScript,
    slices: &[Vec<SliceEntry>],
    made: &[MadeGroup],
    tally: &Tally,
) -> Result<(), NoMemory>
    requires counts { IsTallyOf (slices_alone (map entries_of slices.now)) (length (map entries_of slices.now)) tally.now }
    requires small { All (λ (m : MadeGroupValue). m.gid < 2 ^ 31) made.now }
    ensures { OnOk result (report.new ≡ report.old ++ flat_map (group_line (map entries_of slices.now)) (default_path ∷ map (group_made script.now) made.now)) }
{
    push_group_at(report, slices, tally, 0, b"/".as_slice())?;
    push_made(report, script, slices, made, tally)
}
