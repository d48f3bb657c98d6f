//! A use or a drop of a line, as a curve notes it.
ghost use Rattle.std.specs.Prelude.{◌≡◌, ◌+◌, ◌-◌, ◌^◌, ◌<◌, ◌≤◌};
ghost use Rattle.way_curve.specs.IsCurve.{AddsItem};

use private_lru::Item;
use way_curve::Curve;

/// Notes a use or a drop.
pub(crate) fn note_item(curve: &mut Curve, item: Item)
    requires room { curve.old.uses < 2 ^ 64 - 1 }
    ensures sets { curve.new.sets ≡ curve.old.sets }
    ensures few { curve.new.uses ≤ curve.old.uses + 1 }
    ensures item { AddsItem curve.old curve.new item }
{
    match item {
        Item::Use { line } => curve.note(line),
        Item::Drop { line } => curve.drop_line(line),
    }
}
