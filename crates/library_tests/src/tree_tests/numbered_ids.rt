//! All classes and RMIDs that a machine can have, and a threshold that changes while RMIDs are in limbo.

use hw_ids::{ClassIds, NoRmid, Rmids};

#[test]
fn all_classes_are_taken_from_the_lowest_on(rt: HostRuntime) {
    let mut classes = ClassIds::create(64);
    for want in 1..64 {
        assert_eq!(rt; classes.take(), Some(want));
    }
    assert_eq!(rt; classes.take(), None);
}

#[test]
fn all_rmids_are_taken_from_the_lowest_on(rt: HostRuntime) {
    let mut rmids = Rmids::create(256, 0);
    for want in 1..256 {
        assert_eq!(rt; rmids.take(), Ok(want));
    }
    assert_eq!(rt; rmids.take(), Err(NoRmid::Spent));
}

#[test]
fn a_new_threshold_frees_nothing_before_the_next_tick(rt: HostRuntime) {
    let mut rmids = Rmids::create(2, 128);
    assert_eq!(rt; rmids.take(), Ok(1));
    rmids.free(1, 129);
    rmids.set_threshold(192);
    assert_eq!(rt; rmids.take(), Err(NoRmid::Limbo));
    assert!(rt; rmids.limbo_len() == 1);
    rmids.tick(&[129]);
    assert_eq!(rt; rmids.take(), Ok(1));
}
