//! The misses of a group with each number of ways.
ghost use Rattle.std.specs.Prelude.{◌≡◌, List};
ghost use Rattle.private_lru.specs.declared.item.Item.{Item};
ghost use Rattle.way_curve.specs.IsCurve.{IsItemCurve};
ghost use Rattle.way_plans.specs.Plans.{misses_of};

use crate::MOST_WAYS;
use way_curve::Curve;

/// What misses with each number of ways, from 0 to 32.
pub(crate) fn misses_of(curve: &Curve) -> [u64; MOST_WAYS + 1]
    ensures { (items : List Item) → IsItemCurve curve.now items → result ≡ misses_of curve.now.sets items }
{
    let mut row = [0; MOST_WAYS + 1];
    for ways in 0..MOST_WAYS + 1 {
        row[ways] = curve.misses(ways as u8);
    }
    row
}
