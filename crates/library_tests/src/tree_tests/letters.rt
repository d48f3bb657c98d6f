//! Letters of ways that several use, and texts of no domain, of eight and of 32 ways.
ghost use Rattle.std.specs.Prelude.{◌≤◌, length};

use super::used;
use bit_usage::{USAGE_MAX, letter, print};
use mode_rules::DomainUse;
use rc_base::{NoMemory, TextBuf};
use std::alloc::Global;

// Ways with their letters.
const LETTERS: [(u8, u8); 7] = [
    (0, b'P'),
    (1, b'E'),
    (2, b'X'),
    (3, b'H'),
    (4, b'S'),
    (5, b'0'),
    (31, b'H'),
];

#[test]
fn the_first_letter_that_holds_is_told(rt: HostRuntime) {
    let all = used(0x8000_000f, 0x15, 0x3, 0x1);
    for (way, want) in LETTERS {
        assert!(rt; way < 32);
        assert_eq!(rt; letter(&all, way), want, "way {way}");
    }
}

fn prints(alloc: Global, domains: &[DomainUse], ways: u8, want: &str) -> Result<bool, NoMemory>
    requires domains { length domains.now ≤ 8 }
    requires ways { ways ≤ 32 }
{
    let mut out = TextBuf::with_room(alloc, USAGE_MAX)?;
    print(domains, ways, &mut out);
    Ok(out.bytes() == want.as_bytes())
}

#[test]
fn domains_are_printed_in_order(rt: HostRuntime) {
    let alloc = rt.alloc();
    assert_eq!(rt; prints(alloc, &[], 8, ""), Ok(true));
    let unused = used(0x0, 0x0, 0x0, 0x0);
    assert_eq!(rt;
        prints(alloc, &[unused; 8], 1, "0=0;1=0;2=0;3=0;4=0;5=0;6=0;7=0"),
        Ok(true)
    );
    assert_eq!(rt;
        prints(
            alloc,
            &[used(0x0, 0x0, 0x1, 0x0)],
            32,
            "0=0000000000000000000000000000000E"
        ),
        Ok(true)
    );
}
