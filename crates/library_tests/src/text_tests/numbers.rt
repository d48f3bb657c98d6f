//! Numbers, blanks and separators in texts.
ghost use Rattle.std.specs.Prelude.{◌≤◌};

use num_text::{
    after_prefix, cut, is_blank, leading_blanks, push_dec, push_hex, read_dec, read_dec_capped,
    read_digits, read_hex, read_num, trim,
};
use rc_base::{NoMemory, TextBuf, is_text};
use std::alloc::Global;

const DECIMAL: [(&[u8], Option<u64>); 8] = [
    (b"", None),
    (b"0", Some(0)),
    (b"007", Some(7)),
    (b"18446744073709551615", Some(18_446_744_073_709_551_615)),
    (b"18446744073709551616", None),
    (b"1a", None),
    (b" 1", None),
    (b"+1", None),
];

const HEXADECIMAL: [(&[u8], Option<u64>); 7] = [
    (b"0x", None),
    (b"0xC", Some(12)),
    (b"0X0fF", Some(255)),
    (b"0x0x1", None),
    (b"g", None),
    (b"ffffffffffffffff", Some(18_446_744_073_709_551_615)),
    (b"10000000000000000", None),
];

// Decimal, or hexadecimal after a prefix.
const PREFIXED: [(&[u8], Option<u64>); 3] = [(b"0x10", Some(16)), (b"10", Some(10)), (b"1f", None)];

// Decimal numbers, of which those that are too great are the greatest.
const CAPPED: [(&[u8], Option<u64>); 3] = [
    (b"18446744073709551616", Some(18_446_744_073_709_551_615)),
    (b"12", Some(12)),
    (b"x", None),
];

#[test]
fn numbers_are_read(rt: HostRuntime) {
    for (text, want) in DECIMAL {
        assert_eq!(rt; read_dec(text), want);
    }
    for (text, want) in HEXADECIMAL {
        assert_eq!(rt; read_hex(text), want);
    }
    for (text, want) in PREFIXED {
        assert_eq!(rt; read_num(text), want);
    }
    for (text, want) in CAPPED {
        assert_eq!(rt; read_dec_capped(text), want);
    }
    assert_eq!(rt; read_digits(b"0x1".as_slice(), 16), None);
    assert_eq!(rt; read_digits(b"101".as_slice(), 2), Some(5));
}

#[test]
fn texts_are_cut(rt: HostRuntime) {
    assert!(rt; is_text(trim(b" \t L 3\t ".as_slice()), b"L 3".as_slice()));
    assert!(rt; is_text(trim(b" \t".as_slice()), b"".as_slice()));
    assert!(rt; is_text(after_prefix(b"0Xc".as_slice()), b"c".as_slice()));
    assert!(rt; is_blank(b'\t'));
    assert_eq!(rt; leading_blanks(b"\t x".as_slice()), 2);
    assert_eq!(rt;
        cut(b"a:b:c".as_slice(), b':'),
        (b"a".as_slice(), Some(b"b:c".as_slice()))
    );
    assert_eq!(rt; cut(b"ab".as_slice(), b':'), (b"ab".as_slice(), None));
    assert_eq!(rt;
        cut(b":".as_slice(), b':'),
        (b"".as_slice(), Some(b"".as_slice()))
    );
}

fn prints_decimal(alloc: Global, n: u64, want: &[u8]) -> Result<bool, NoMemory> {
    let mut out = TextBuf::with_room(alloc, 20)?;
    push_dec(n, &mut out);
    Ok(out.bytes() == want)
}

fn prints_hexadecimal(alloc: Global, n: u64, width: u8, want: &[u8]) -> Result<bool, NoMemory>
    requires { width ≤ 16 }
{
    let mut out = TextBuf::with_room(alloc, 16)?;
    push_hex(n, width, &mut out);
    Ok(out.bytes() == want)
}

const PRINTED_DECIMAL: [(u64, &[u8]); 2] = [(0, b"0"), (u64::MAX, b"18446744073709551615")];

// Numbers with the digits that they have at least.
const PRINTED_HEXADECIMAL: [(u64, u8, &[u8]); 5] = [
    (0, 0, b"0"),
    (42, 0, b"2a"),
    (1, 8, b"00000001"),
    (2748, 2, b"abc"),
    (u64::MAX, 16, b"ffffffffffffffff"),
];

#[test]
fn numbers_are_printed(rt: HostRuntime) {
    for (n, want) in PRINTED_DECIMAL {
        assert_eq!(rt; prints_decimal(rt.alloc(), n, want), Ok(true));
    }
    for (n, width, want) in PRINTED_HEXADECIMAL {
        assert!(rt; width <= 16);
        assert_eq!(rt; prints_hexadecimal(rt.alloc(), n, width, want), Ok(true));
    }
}
