//! The lines of regions, and where a Lock puts them.

use machine::{Machine, Parameters};
use pseudo_lock::{Region, Regions, line_at, load_place};
use rc_base::Gid;
use std::process::Abort;

// The first line of region 0.
const FIRST: u64 = 4_503_599_627_370_496;

// How far apart the first lines of two regions are that were placed one after the other.
const APART: u64 = 4_294_967_296;

#[test]
fn a_region_that_is_gone_leaves_its_domain_free_and_its_number_used(rt: HostRuntime) {
    let mut regions = Regions::create();
    regions.place(Gid(3), 0, 0xc);
    let second = regions.place(Gid(5), 7, 0x3);
    assert_eq!(rt; second.first_line, FIRST + APART);
    regions.remove(Gid(3));
    assert_eq!(rt; regions.of(7), Some(second));
    assert!(rt; regions.placed() == 2);
    assert!(rt; regions.of(0).is_none());
    let third = regions.place(Gid(3), 0, 0x1);
    assert_eq!(rt; third.first_line, FIRST + 2 * APART);
}

#[test]
fn regions_of_others_stay(rt: HostRuntime) {
    let mut regions = Regions::create();
    let first = regions.place(Gid(3), 0, 0xc);
    regions.remove(Gid(0));
    assert_eq!(rt; regions.of(0), Some(first));
    assert_eq!(rt; regions.of(255), None);
}

// Four sets of four ways.
fn small(rt: &impl Abort) -> Machine {
    let parameters = Parameters {
        sets: 4,
        ways: 4,
        ..Parameters::default()
    };
    Machine::checked(&parameters).expect(rt, "the parameters are in range")
}

// Two of four ways.
const REGION: Region = Region {
    gid: Gid(1),
    domain: 0,
    mask: 0xc,
    first_line: FIRST,
};

// Offsets in bytes with their lines.
const OFFSETS: [(u64, Option<u64>); 5] = [
    (63, Some(FIRST)),
    (64, Some(FIRST + 1)),
    (511, Some(FIRST + 7)),
    (512, None),
    (u64::MAX, None),
];

#[test]
fn offsets_end_at_the_size(rt: HostRuntime) {
    let machine = small(&rt);
    for (offset, want) in OFFSETS {
        assert_eq!(rt; line_at(&REGION, &machine, offset), want, "{offset}");
    }
}

// The ways 2 and 3 of each set with the lines, counted from the first, that a Lock of both puts there.
const LOADED: [(u32, u64, u64); 4] = [(0, 0, 4), (1, 1, 5), (2, 2, 6), (3, 3, 7)];

// Ways that the mask does not have.
const NOT_LOADED: [u8; 4] = [0, 1, 4, 255];

#[test]
fn a_lock_loads_way_after_way(rt: HostRuntime) {
    let machine = small(&rt);
    for (set, low, high) in LOADED {
        assert!(rt; set < machine.sets);
        assert_eq!(rt;
            load_place(&machine, 0xc, FIRST, set, 2),
            FIRST.checked_add(low)
        );
        assert_eq!(rt;
            load_place(&machine, 0xc, FIRST, set, 3),
            FIRST.checked_add(high)
        );
        for way in NOT_LOADED {
            assert_eq!(rt; load_place(&machine, 0xc, FIRST, set, way), None);
        }
    }
}

// The ways of a mask with a gap are counted, and not their numbers.
#[test]
fn a_gap_in_a_mask_has_no_lines(rt: HostRuntime) {
    let machine = small(&rt);
    assert!(rt; machine.sets == 4);
    assert_eq!(rt; load_place(&machine, 0xa, FIRST, 1, 3), Some(FIRST + 5));
    assert_eq!(rt;
        load_place(&machine, 0x8000_0001, FIRST, 0, 31),
        Some(FIRST + 4)
    );
}
