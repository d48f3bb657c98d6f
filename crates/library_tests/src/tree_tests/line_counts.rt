//! Counts from the start and after a clear. The tests of a slice count lines up and down.

use occupancy::Counts;
use std::test::Fail;

#[test]
fn counts_begin_at_nothing(rt: HostRuntime) -> Result<(), Fail> {
    let mut counts = Counts::create(rt.alloc(), 4)?;
    assert_eq!(rt; (counts.of(3), counts.total()), (0, 0));
    counts.clear();
    assert_eq!(rt; (counts.of(0), counts.total()), (0, 0));
    Ok(())
}
