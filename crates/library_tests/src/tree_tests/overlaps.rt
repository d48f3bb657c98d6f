//! What stands against a mask first, where several things do.

use mode_rules::{DomainUse, Overlap, may_turn_exclusive, may_write_mask};
use rc_base::Mode;

// What others use: other hardware the two highest ways, and no region.
const OPEN: DomainUse = DomainUse {
    hardware: 0xc0,
    shared: 0xf,
    exclusive: 0x30,
    region: 0x0,
};

// What others use: other hardware the highest way, and a region two ways.
const LOCKED: DomainUse = DomainUse {
    hardware: 0x80,
    shared: 0x3,
    exclusive: 0xc,
    region: 0x30,
};

const WRITTEN: [(Mode, u32, DomainUse, Result<(), Overlap>); 8] = [
    (Mode::Shareable, 0x3c, LOCKED, Err(Overlap::Exclusive)),
    (Mode::Exclusive, 0xcf, OPEN, Err(Overlap::Other)),
    (Mode::Exclusive, 0x40, LOCKED, Ok(())),
    (Mode::Exclusive, 0x20, LOCKED, Err(Overlap::Region)),
    (Mode::LockSetup, 0xc0, LOCKED, Err(Overlap::Hardware)),
    (Mode::LockSetup, 0xc3, LOCKED, Err(Overlap::Other)),
    (Mode::LockSetup, 0xf3, LOCKED, Err(Overlap::Region)),
    (Mode::LockSetup, 0x100, OPEN, Ok(())),
];

#[test]
fn masks_are_refused_in_order(rt: HostRuntime) {
    for (mode, mask, others, want) in WRITTEN {
        assert!(rt; mode != Mode::Locked);
        assert_eq!(rt;
            may_write_mask(mode, mask, &others),
            want,
            "{mode:?} {mask:x}"
        );
    }
}

// Masks with whether a group may turn exclusive on them: a region does not keep it.
const TURNED: [(u32, bool); 3] = [(0x10, true), (0x18, false), (0x40, true)];

#[test]
fn a_region_keeps_no_group_from_being_exclusive(rt: HostRuntime) {
    for (mask, turns) in TURNED {
        assert_eq!(rt; may_turn_exclusive(mask, &LOCKED), turns, "mask {mask:x}");
    }
}
