//! Sets of three ways and of more, by hand.

use way_fill::{equal_ways, find, least_used, victim};

#[test]
fn lines_are_found_and_ways_chosen(rt: HostRuntime) {
    assert_eq!(rt; find(&[5, 7, 7], 0b101, 7), Some(2));
    assert_eq!(rt; find(&[5, 7, 7], 0b001, 7), None);
    assert_eq!(rt; victim(&[9, 4, 4], 0b001, 0b110), 1);
    assert_eq!(rt; victim(&[9, 4, 4], 0b111, 0b111), 1);
    assert_eq!(rt; victim(&[3, 4, 4], 0b111, 0b110), 1);
    assert_eq!(rt; victim(&[3, 4, 2], 0b111, 0b011), 0);
}

#[test]
fn many_ways_are_compared_at_once(rt: HostRuntime) {
    let lines = [7; 32];
    assert_eq!(rt; equal_ways(&lines, 7), u32::MAX);
    assert_eq!(rt; equal_ways(&lines, 5), 0);
    assert_eq!(rt; equal_ways(&lines[..0], 7), 0);
    assert_eq!(rt; equal_ways(&lines[..3], 7), 0b111);
    assert_eq!(rt; equal_ways(&lines[..12], 7), 0xfff);
    assert_eq!(rt; equal_ways(&lines[..17], 7), 0x1_ffff);
    assert_eq!(rt;
        equal_ways(&[1, 2, 3, 4, 5, 6, 7, 8, 9, 8, 1], 8),
        0b010_1000_0000
    );
    assert_eq!(rt; find(&lines, 0x8000_0000, 7), Some(31));
    assert_eq!(rt; find(&lines, 0x10, 5), None);
    assert_eq!(rt; least_used(&[7; 32], 0x8000_0010), 4);
}
