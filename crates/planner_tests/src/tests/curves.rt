//! Curves of lines.

ghost use Rattle.std.specs.Prelude.{◌≡◌, IfOk};

use rc_base::NoMemory;
use std::alloc::Global;
use std::test::Fail;
use way_curve::Curve;

// A curve for caches of so many sets, 1 at least.
fn curve_of(alloc: Global, sets: u32) -> Result<Curve, NoMemory>
    ensures { IfOk result (λ c. c.uses ≡ 0) }
{
    if sets == 0 {
        return Err(NoMemory);
    }
    Curve::create(alloc, sets)
}

#[test]
fn hits_come_by_distance(rt: HostRuntime) -> Result<(), Fail> {
    // The second use of 1 comes after one other line, and that of 2 after two.
    let mut curve = curve_of(rt.alloc(), 1)?;
    curve.note(1);
    curve.note(2);
    curve.note(1);
    curve.note(3);
    curve.note(2);
    assert_eq!(rt; curve.uses(), 5);
    assert_eq!(rt; curve.hits(1), 0);
    assert_eq!(rt; curve.hits(2), 1);
    assert_eq!(rt; curve.hits(3), 2);
    assert_eq!(rt; curve.misses(3), 3);
    Ok(())
}

#[test]
fn sets_may_be_any_number(rt: HostRuntime) -> Result<(), Fail> {
    // Of three sets lines 0, 3 and 6 are of one, and 1 and 4 of another; 2 is alone. The second use of 0 comes after two other lines
    // of its set, that of 1 after one, and that of 2 after none.
    let mut curve = curve_of(rt.alloc(), 3)?;
    curve.note(0);
    curve.note(3);
    curve.note(1);
    curve.note(2);
    curve.note(6);
    curve.note(4);
    curve.note(2);
    curve.note(1);
    curve.note(0);
    assert_eq!(rt; curve.hits(1), 1);
    assert_eq!(rt; curve.hits(2), 2);
    assert_eq!(rt; curve.hits(3), 3);
    assert_eq!(rt; curve.misses(3), 6);
    Ok(())
}

#[test]
fn sets_are_apart(rt: HostRuntime) -> Result<(), Fail> {
    // Lines 0 and 2 are of one set, and 1 is alone in the other.
    let mut curve = curve_of(rt.alloc(), 2)?;
    curve.note(0);
    curve.note(2);
    curve.note(1);
    curve.note(0);
    curve.note(1);
    assert_eq!(rt; curve.hits(1), 1);
    assert_eq!(rt; curve.hits(2), 2);
    assert_eq!(rt; curve.misses(2), 3);
    Ok(())
}
