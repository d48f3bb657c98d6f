//! The lines of control groups.
ghost use Rattle.std.specs.Prelude.{◌≡◌, ◌<◌, ◌++◌, OnOk, length, map};
ghost use Rattle.std.specs.List.{flat_map};
ghost use Rattle.machine.specs.Slices.{slice_count};
ghost use Rattle.report_text.specs.Reporting.{group_line};
ghost use Rattle.run_counts.specs.Tallies.{IsTallyOf};
ghost use Rattle.run_replay.specs.Made.{control_of, controls, default_control, made_from};
ghost use Rattle.run_replay.specs.Replayed.{AreKnownGroups};
ghost use Rattle.tree_law.specs.State.{opening};

use crate::push_group;
use num_text::GrowingText;
use path_names::{DirRef, PathRef};
use rc_base::NoMemory;
use run_counts::Tally;
use run_law::Journals;
use run_replay::MadeGroup;
use script_ops::Script;

// Adds the line of a control group that was made.
fn push_made_group(
    report: &mut GrowingText,
    script: &Script,
    journals: &Journals,
    made: MadeGroup,
    tally: &Tally,
) -> Result<(), NoMemory>
    requires known { made.name.0 < length script.now.names }
    requires counts { IsTallyOf journals.now (slice_count script.now.machine) tally.now }
    ensures { OnOk result (report.new ≡ report.old ++ group_line script.now journals.now (control_of script.now.names made)) }
{
    let path = PathRef::Dir(DirRef::Ctrl(made.name));
    push_group(report, script.names(), made.gid, path, tally.of(made.gid))
}

// Adds the lines of the control groups that were made.
fn push_made(
    report: &mut GrowingText,
    script: &Script,
    journals: &Journals,
    made: &[MadeGroup],
    tally: &Tally,
) -> Result<(), NoMemory>
    requires known { AreKnownGroups script.now.names made.now }
    requires counts { IsTallyOf journals.now (slice_count script.now.machine) tally.now }
    ensures { OnOk result (report.new ≡ report.old ++ flat_map (group_line script.now journals.now) (map (control_of script.now.names) made.now)) }
{
    for group in made {
        push_made_group(report, script, journals, *group, tally)?;
    }
    Ok(())
}

// Adds the line of the default group.
fn push_default_group(
    report: &mut GrowingText,
    script: &Script,
    journals: &Journals,
    tally: &Tally,
) -> Result<(), NoMemory>
    requires counts { IsTallyOf journals.now (slice_count script.now.machine) tally.now }
    ensures { OnOk result (report.new ≡ report.old ++ group_line script.now journals.now default_control) }
{
    let root = PathRef::Dir(DirRef::Root);
    push_group(report, script.names(), 0, root, tally.of(0))
}

/// Adds the lines of the groups: the default group, and those that were made.
pub(crate) fn push_groups(
    report: &mut GrowingText,
    script: &Script,
    journals: &Journals,
    made: &[MadeGroup],
    tally: &Tally,
) -> Result<(), NoMemory>
    requires counts { IsTallyOf journals.now (slice_count script.now.machine) tally.now }
    requires known { AreKnownGroups script.now.names made.now }
    requires made { made.now ≡ made_from script.now (opening script.now.machine script.now.tasks) journals.now.tree }
    ensures { OnOk result (report.new ≡ report.old ++ flat_map (group_line script.now journals.now) (controls script.now journals.now.tree)) }
{
    push_default_group(report, script, journals, tally)?;
    push_made(report, script, journals, made, tally)
}
