//! The texts of CPU sets, at their edges.
ghost use Rattle.std.specs.Prelude.{◌≤◌};

use cpu_lists::{CpuFault, print_list, print_mask, read_list, read_mask};
use rc_base::{NoMemory, TextBuf};
use std::alloc::Global;

// A set that a text says, or what is wrong with it.
type Reading = Result<u64, CpuFault>;

const BAD: Reading = Err(CpuFault::Bad);

const MASKS: [(&[u8], u8, Reading); 23] = [
    (b"", 4, Ok(0)),
    (b"c", 4, Ok(12)),
    (b"0xC", 4, Ok(12)),
    (b"0X0000000c", 4, Ok(12)),
    (b"0000000000c", 4, BAD),
    (b"00000000,00000001", 64, Ok(1)),
    (b"1,00000000", 33, Ok(4_294_967_296)),
    (b"1,0", 33, Ok(4_294_967_296)),
    (b"80000000,0", 64, Ok(9_223_372_036_854_775_808)),
    (b"0,0,0,1", 1, Ok(1)),
    (b"1,00000000", 32, Err(CpuFault::NotACpu { cpu: 32 })),
    (b"30", 4, Err(CpuFault::NotACpu { cpu: 4 })),
    (b"8,20", 4, Err(CpuFault::NotACpu { cpu: 5 })),
    (b"2,0,0", 64, Err(CpuFault::NotACpu { cpu: 65 })),
    (b"1,1,0,0", 64, Err(CpuFault::NotACpu { cpu: 64 })),
    (b"1,0,0,0", 64, Err(CpuFault::NotACpu { cpu: 96 })),
    (b"1,0,0,f", 2, Err(CpuFault::NotACpu { cpu: 2 })),
    (b"0x", 4, BAD),
    (b"1,", 4, BAD),
    (b",1", 4, BAD),
    (b"1,0x1", 64, BAD),
    (b"f0,g", 4, BAD),
    (b" 1", 4, BAD),
];

const PRINTED_MASKS: [(u64, u8, &[u8]); 6] = [
    (12, 4, b"c"),
    (0, 1, b"0"),
    (5, 8, b"05"),
    (1, 32, b"00000001"),
    (4_294_967_296, 33, b"1,00000000"),
    (1, 64, b"00000000,00000001"),
];

fn prints_mask(alloc: Global, set: u64, cpus: u8, want: &[u8]) -> Result<bool, NoMemory>
    requires { cpus ≤ 64 }
{
    let mut out = TextBuf::with_room(alloc, 256)?;
    print_mask(set, cpus, &mut out);
    Ok(out.bytes() == want)
}

#[test]
fn masks_are_read_and_printed(rt: HostRuntime) {
    for (text, cpus, want) in MASKS {
        assert!(rt; cpus <= 64);
        assert_eq!(rt; read_mask(text, cpus), want);
    }
    for (set, cpus, want) in PRINTED_MASKS {
        assert!(rt; cpus <= 64);
        assert_eq!(rt; prints_mask(rt.alloc(), set, cpus, want), Ok(true));
    }
}

const LISTS: [(&[u8], u8, Reading); 23] = [
    (b"", 4, Ok(0)),
    (b"0", 4, Ok(1)),
    (b"0-3", 4, Ok(15)),
    (b"2-2", 4, Ok(4)),
    (b"3,0-1", 4, Ok(11)),
    (b"1-2,2-3,1", 4, Ok(14)),
    (b"007", 8, Ok(128)),
    (b"63", 64, Ok(9_223_372_036_854_775_808)),
    (b"9,5-6", 4, Err(CpuFault::NotACpu { cpu: 5 })),
    (b"2-5,70", 4, Err(CpuFault::NotACpu { cpu: 4 })),
    (b"70,64-65", 64, Err(CpuFault::NotACpu { cpu: 64 })),
    (
        b"18446744073709551615",
        4,
        Err(CpuFault::NotACpu {
            cpu: 18_446_744_073_709_551_615,
        }),
    ),
    (
        b"80-18446744073709551615,0",
        64,
        Err(CpuFault::NotACpu { cpu: 80 }),
    ),
    (b"18446744073709551616", 4, BAD),
    (b"2-1", 4, BAD),
    (b"1-", 4, BAD),
    (b"-1", 4, BAD),
    (b"1-2-3", 4, BAD),
    (b"0,1,", 4, BAD),
    (b",", 4, BAD),
    (b"9,x", 4, BAD),
    (b"0x1", 4, BAD),
    (b"0, 1", 4, BAD),
];

const PRINTED_LISTS: [(u64, &[u8]); 5] = [
    (0, b""),
    (10, b"1,3"),
    (11, b"0-1,3"),
    (9_223_372_036_854_775_808, b"63"),
    (u64::MAX, b"0-63"),
];

fn prints_list(alloc: Global, set: u64, want: &[u8]) -> Result<bool, NoMemory> {
    let mut out = TextBuf::with_room(alloc, 256)?;
    print_list(set, &mut out);
    Ok(out.bytes() == want)
}

#[test]
fn lists_are_read_and_printed(rt: HostRuntime) {
    for (text, cpus, want) in LISTS {
        assert!(rt; cpus <= 64);
        assert_eq!(rt; read_list(text, cpus), want);
    }
    for (set, want) in PRINTED_LISTS {
        assert_eq!(rt; prints_list(rt.alloc(), set, want), Ok(true));
    }
}
