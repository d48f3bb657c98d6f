//! Where a line leads that stands after whole slices.
ghost use Rattle.std.specs.Prelude.{◌≡◌, ◌≤◌, MatchOption};
ghost use Rattle.journal_text.specs.LinePositions.{LeadsFromSlices};
ghost use Rattle.journal_text.specs.declared.line_position.LinePosition.{LinePosition};
ghost use Rattle.machine.specs.Slices.{slice_count};
ghost use Rattle.script_ops.specs.Values.{total_weight};

use crate::count_of_line;
use crate::line_position::LinePosition;
use crate::weighed_script::WeighedScript;
use rc_base::is_text;

/// Where a line leads that stands after so many slices: into the next slice, or after the last one to the end. None where it may
/// not stand there.
pub(crate) fn after_slices(
    weighed: &WeighedScript<'_>,
    slices: u32,
    line: &[u8],
) -> Option<LinePosition>
    requires weight { weighed.now.weight ≡ total_weight weighed.now.script.now }
    requires few { slices ≤ slice_count weighed.now.script.now.machine }
    ensures { MatchOption result
        ((next : LinePosition) → LeadsFromSlices weighed.now.script.now slices line.now next → ⊥)
        (LeadsFromSlices weighed.now.script.now slices line.now) }
{
    let machine = weighed.script.machine();
    if slices < u32::from(machine.slice_count()) {
        let left = count_of_line(line, machine, slices, weighed.weight)?;
        return Some(LinePosition::InSlice {
            slice: slices as u8,
            left,
        });
    }
    if is_text(line, b"end") {
        Some(LinePosition::Over)
    } else {
        None
    }
}
