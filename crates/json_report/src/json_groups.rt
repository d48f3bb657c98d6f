//! The values of control groups.
ghost use Rattle.std.specs.Prelude.{◌≡◌, ◌<◌, ◌++◌, ◌∷◌, [], OnOk, codes, length, map, true};
ghost use Rattle.json_report.specs.Pieces.{items_told, members_told};
ghost use Rattle.json_report.specs.Values.{array_of};
ghost use Rattle.json_report.specs.Groups.{group_value, group_values};
ghost use Rattle.machine.specs.Slices.{slice_count};
ghost use Rattle.run_counts.specs.Tallies.{IsTallyOf};
ghost use Rattle.run_replay.specs.Made.{control_of, default_control, made_from};
ghost use Rattle.run_replay.specs.Replayed.{AreKnownGroups};
ghost use Rattle.serde_json.specs.Written.{comma_if, compact_text};
ghost use Rattle.tree_law.specs.State.{opening};

use crate::{push_group, push_key};
use num_text::GrowingText;
use path_names::{DirRef, PathRef};
use rc_base::NoMemory;
use run_counts::Tally;
use run_replay::{MadeGroup, Run};
use std::alloc::Global;

// Adds a control group that was made, after those before it.
fn push_made_group(
    alloc: Global,
    report: &mut GrowingText,
    run: &Run<'_>,
    made: MadeGroup,
    tally: &Tally,
) -> Result<(), NoMemory>
    requires known { made.name.0 < length run.now.script.now.names }
    requires counts { IsTallyOf run.now.journals.now (slice_count run.now.script.now.machine) tally.now }
    ensures { OnOk result (report.new ≡ report.old ++ (comma_if true ++ compact_text (group_value run.now.script.now run.now.journals.now (control_of run.now.script.now.names made)))) }
{
    let path = PathRef::Dir(DirRef::Ctrl(made.name));
    report.push(b",".as_slice())?;
    push_group(
        alloc,
        report,
        run.script.names(),
        made.gid,
        path,
        tally.of(made.gid),
    )
}

// Adds the control groups that were made.
fn push_made(
    alloc: Global,
    report: &mut GrowingText,
    run: &Run<'_>,
    made: &[MadeGroup],
    tally: &Tally,
) -> Result<(), NoMemory>
    requires known { AreKnownGroups run.now.script.now.names made.now }
    requires counts { IsTallyOf run.now.journals.now (slice_count run.now.script.now.machine) tally.now }
    ensures { OnOk result (report.new ≡ report.old ++ items_told true (map (group_value run.now.script.now run.now.journals.now) (map (control_of run.now.script.now.names) made.now))) }
{
    for group in made {
        push_made_group(alloc, report, run, *group, tally)?;
    }
    Ok(())
}

// Adds the default group.
fn push_default_group(
    alloc: Global,
    report: &mut GrowingText,
    run: &Run<'_>,
    tally: &Tally,
) -> Result<(), NoMemory>
    requires { IsTallyOf run.now.journals.now (slice_count run.now.script.now.machine) tally.now }
    ensures { OnOk result (report.new ≡ report.old ++ compact_text (group_value run.now.script.now run.now.journals.now default_control)) }
{
    let root = PathRef::Dir(DirRef::Root);
    push_group(alloc, report, run.script.names(), 0, root, tally.of(0))
}

/// Adds the groups: the default group, and those that were made.
pub(crate) fn push_groups(
    alloc: Global,
    report: &mut GrowingText,
    run: &Run<'_>,
    made: &[MadeGroup],
    tally: &Tally,
) -> Result<(), NoMemory>
    requires counts { IsTallyOf run.now.journals.now (slice_count run.now.script.now.machine) tally.now }
    requires known { AreKnownGroups run.now.script.now.names made.now }
    requires made { made.now ≡ made_from run.now.script.now (opening run.now.script.now.machine run.now.script.now.tasks) run.now.journals.now.tree }
    ensures { OnOk result (report.new ≡ report.old ++ members_told true ((codes "groups", array_of (group_values run.now.script.now run.now.journals.now)) ∷ [])) }
{
    push_key(report, true, "groups")?;
    report.push(b"[".as_slice())?;
    push_default_group(alloc, report, run, tally)?;
    push_made(alloc, report, run, made, tally)?;
    report.push(b"]".as_slice())
}
