//! The lines that give groups their ways.
ghost use Rattle.std.specs.Prelude.{◌≡◌, ◌+◌, ◌<◌, ◌≤◌, ◌^◌, ◌++◌, All, OnOk, length};
ghost use Rattle.way_plans.specs.PlanTexts.{schemata_line, schemata_lines};
ghost use Rattle.way_plans.specs.Values.{IsSmall, parts_of};
ghost use Rattle.tree_core.specs.Named.{AreNamed, IsNamed};

use crate::domain_plan::DomainPlan;
use crate::masks::push_masks;
use crate::writes::push_write;
use group_tree::Group;
use num_text::GrowingText;
use path_names::FileKind;
use rc_base::{NoMemory, TextBuf};
use schemata_text::print;
use script_ops::Script;
use std::alloc::Global;

/// A script with the plans of its domains.
#[derive(Drop)]
pub(crate) struct PlannedScript<'a> {
    /// The script.
    pub script: &'a Script,
    /// What is planned for each domain, rising from 0.
    pub plans: &'a [DomainPlan],
}

// The most bytes of the masks of 8 domains.
const MOST_SCHEMATA_BYTES: usize = 128;

// Adds the line that gives the group at a place its ways in every domain.
fn push_schemata_line(
    alloc: Global,
    text: &mut GrowingText,
    planned: &PlannedScript<'_>,
    place: usize,
    group: &Group,
) -> Result<(), NoMemory>
    requires named { IsNamed planned.now.script.now.names group.now }
    requires few { length planned.now.plans.now ≤ 8 }
    requires small { All IsSmall planned.now.plans.now }
    ensures { OnOk result (text.new ≡ text.old ++ schemata_line planned.now.script.now.names planned.now.script.now.machine.ways (parts_of planned.now.plans.now) place group.now) }
{
    let mut masks = Vec::new(alloc);
    push_masks(planned.plans, place, 0, &mut masks)?;
    let mut written = TextBuf::with_room(alloc, MOST_SCHEMATA_BYTES)?;
    print(&masks, planned.script.machine().ways, &mut written);
    push_write(
        text,
        planned.script.names(),
        group,
        FileKind::Schemata,
        written.bytes(),
    )
}

/// Adds the lines that give groups their ways, the first of which stands at this place.
pub(crate) fn push_schemata(
    alloc: Global,
    text: &mut GrowingText,
    planned: &PlannedScript<'_>,
    place: usize,
    groups: &[Group],
) -> Result<(), NoMemory>
    requires named { AreNamed planned.now.script.now.names groups.now }
    requires places { place + length groups.now < 2 ^ 64 }
    requires few { length planned.now.plans.now ≤ 8 }
    requires small { All IsSmall planned.now.plans.now }
    ensures { OnOk result (text.new ≡ text.old ++ schemata_lines planned.now.script.now.names planned.now.script.now.machine.ways (parts_of planned.now.plans.now) place groups.now) }
{
    let [group, later @ ..] = groups else {
        return Ok(());
    };
    push_schemata_line(alloc, text, planned, place, group)?;
    push_schemata(alloc, text, planned, place + 1, later)
}
