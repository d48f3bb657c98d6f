//! The masks that new groups begin with.
ghost use Rattle.std.specs.Prelude.{◌≤◌};

use super::used;
use cbm::Geometry;
use mode_rules::{DomainUse, initial_mask};

// The ways that other hardware, shareable groups, exclusive groups and a region use.
type Uses = (u32, u32, u32, u32);

// What others use, the ways of a cache, the least number of adjacent ways of a mask, and the mask.
type Row = (Uses, u8, u8, Option<u32>);

// The mask is the lowest run.
const WHOLE: [Row; 9] = [
    ((0x0, 0x0, 0x0, 0x0), 32, 32, Some(0xffff_ffff)),
    ((0x0, 0x0, 0x0, 0x0), 1, 1, Some(0x1)),
    ((0x0, 0x0, 0xf, 0x0), 8, 4, Some(0xf0)),
    ((0x0, 0x0, 0xf, 0x0), 8, 5, None),
    ((0x0, 0x0, 0x2, 0x0), 8, 1, Some(0x1)),
    ((0x0, 0x0, 0x2, 0x0), 8, 2, None),
    ((0xc0, 0x0, 0x3f, 0x0), 8, 1, Some(0xc0)),
    ((0x0, 0x5, 0xa, 0x0), 4, 1, Some(0x1)),
    ((0x0, 0x0, 0x0, 0x3), 4, 1, Some(0xc)),
];

// The mask has all ways that it may.
const SPARSE: [Row; 3] = [
    ((0x0, 0x1, 0x4, 0x20), 8, 2, Some(0xdb)),
    ((0x0, 0x0, 0x2, 0x0), 8, 2, None),
    ((0x0, 0x0, 0xf, 0x0), 4, 1, None),
];

// The mask of a new group.
fn mask_beside(others: &DomainUse, ways: u8, min: u8, sparse: bool) -> Option<u32>
    requires { ways ≤ 32 }
{
    initial_mask(
        others,
        &Geometry {
            len: ways,
            min,
            sparse,
        },
    )
}

#[test]
fn new_groups_get_the_lowest_run_or_all_ways(rt: HostRuntime) {
    for ((hardware, shared, exclusive, region), ways, min, want) in WHOLE {
        assert!(rt; ways <= 32);
        let others = used(hardware, shared, exclusive, region);
        assert_eq!(rt; mask_beside(&others, ways, min, false), want, "{others:?}");
    }
    for ((hardware, shared, exclusive, region), ways, min, want) in SPARSE {
        assert!(rt; ways <= 32);
        let others = used(hardware, shared, exclusive, region);
        assert_eq!(rt; mask_beside(&others, ways, min, true), want, "{others:?}");
    }
}
