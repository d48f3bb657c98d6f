//! Masks of one way, of all and with gaps.
ghost use Rattle.std.specs.Prelude.{◌≤◌};

use cbm::{CbmFault, Geometry, check, count, lowest_run, overlaps};

// The ways of a cache, the least number of adjacent ways of a mask, a mask, and the answer.
type Row = (u8, u8, u64, Result<u32, CbmFault>);

// The masks have no gaps.
const WHOLE: [Row; 8] = [
    (4, 4, 0xf, Ok(0xf)),
    (4, 4, 0x7, Err(CbmFault::TooFew)),
    (1, 1, 0x1, Ok(0x1)),
    (1, 1, 0x2, Err(CbmFault::Range)),
    (32, 32, 0xffff_ffff, Ok(0xffff_ffff)),
    (32, 1, 0x8000_0000, Ok(0x8000_0000)),
    (32, 1, 0x1_0000_0000, Err(CbmFault::Range)),
    (32, 1, 0x8000_0000_0000_0000, Err(CbmFault::Range)),
];

// The masks may have gaps.
const SPARSE: [Row; 3] = [
    (4, 2, 0xd, Err(CbmFault::TooFew)),
    (4, 1, 0x10, Err(CbmFault::Range)),
    (4, 1, 0x0, Err(CbmFault::Range)),
];

// The answer for a mask.
fn checked(ways: u8, min: u8, sparse: bool, bits: u64) -> Result<u32, CbmFault>
    requires { ways ≤ 32 }
{
    check(
        bits,
        &Geometry {
            len: ways,
            min,
            sparse,
        },
    )
}

#[test]
fn masks_are_checked(rt: HostRuntime) {
    for (ways, min, bits, want) in WHOLE {
        assert!(rt; ways <= 32);
        assert_eq!(rt; checked(ways, min, false, bits), want, "mask {bits:x}");
    }
    for (ways, min, bits, want) in SPARSE {
        assert!(rt; ways <= 32);
        assert_eq!(rt; checked(ways, min, true, bits), want, "mask {bits:x}");
    }
}

// Masks with the number of their ways and their lowest run.
const RUNS: [(u32, u32, u32); 7] = [
    (0x0, 0, 0x0),
    (0xb, 3, 0x3),
    (0xd0, 3, 0x10),
    (0x8000_0001, 2, 0x1),
    (0x8000_0000, 1, 0x8000_0000),
    (0xffff_fffe, 31, 0xffff_fffe),
    (0xffff_ffff, 32, 0xffff_ffff),
];

// Masks that have a way in common, and others.
const PAIRS: [(u32, u32, bool); 3] = [
    (0x0, 0xffff_ffff, false),
    (0x8000_0000, 0x8000_0000, true),
    (0x7fff_ffff, 0x8000_0000, false),
];

#[test]
fn masks_are_sets(rt: HostRuntime) {
    for (mask, ways, run) in RUNS {
        assert_eq!(rt; count(mask), ways, "mask {mask:x}");
        assert_eq!(rt; lowest_run(mask), run, "mask {mask:x}");
    }
    for (a, b, want) in PAIRS {
        assert_eq!(rt; overlaps(a, b), want, "masks {a:x} and {b:x}");
    }
}
