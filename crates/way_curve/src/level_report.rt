//! The lines that say which levels stand before.
ghost use Rattle.std.specs.Prelude.{◌≡◌, ◌+◌, ◌≤◌, ◌++◌, length};
ghost use Rattle.way_curve.specs.CurveTexts.{level_text, levels_text};
ghost use Rattle.way_curve.specs.declared.report_limits.TheConstants.{MOST_LEVELS_BYTES};

use crate::first_level::LevelShape;
use crate::first_levels::LevelShapes;
use crate::numbers::push_number;
use rc_base::TextBuf;

// Adds the line of a level, if there is one.
fn push_level(name: &[u8], level: Option<LevelShape>, out: &mut TextBuf)
    requires name { length name.now ≤ 4 }
    requires room { 60 ≤ out.old.spare }
    ensures bytes { out.new.bytes ≡ out.old.bytes ++ level_text name.now level }
    ensures spare { out.old.spare ≤ out.new.spare + 60 }
{
    if let Some(level) = level {
        push_number(name, u64::from(level.sets), out);
        push_number(b" sets of ".as_slice(), u64::from(level.ways), out);
        out.push_all(b" ways\n".as_slice());
    }
}

/// Adds the lines that say which levels the trace is played through before it is counted; nothing where there are none.
pub fn push_levels(levels: LevelShapes, out: &mut TextBuf)
    requires { MOST_LEVELS_BYTES ≤ out.old.spare }
    ensures bytes { out.new.bytes ≡ out.old.bytes ++ levels_text levels }
    ensures spare { out.old.spare ≤ out.new.spare + MOST_LEVELS_BYTES }
{
    push_level(b"l1: ".as_slice(), levels.l1, out);
    push_level(b"l2: ".as_slice(), levels.l2, out);
}
