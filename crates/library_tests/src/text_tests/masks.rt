//! The text of schemata, at its edges.
ghost use Rattle.std.specs.Prelude.{◌≤◌, length};

use cbm::{CbmFault, Geometry};
use rc_base::{NoMemory, TextBuf};
use schemata_text::{Assignment, Assignments, TextFault, print, read};
use std::alloc::Global;

// Two domains of four ways each, with masks of two ways at least.
fn read_small(text: &[u8]) -> Result<Assignments, TextFault> {
    read(
        text,
        &Geometry {
            len: 4,
            min: 2,
            sparse: false,
        },
        2,
    )
}

const BAD: [(&[u8], TextFault); 21] = [
    (b"", TextFault::NoColon),
    (b"L3", TextFault::NoColon),
    (b"L2:0=10", TextFault::BadResource),
    (b"l3:0=3", TextFault::BadResource),
    (b"L3: \t", TextFault::NoValue),
    (b"L3:0=3\n", TextFault::NoColon),
    (b"L3:;", TextFault::NoEquals),
    (b"L3:0=3;;1=3", TextFault::NoEquals),
    (b"L3:0=3; \nL3:1=3", TextFault::NoEquals),
    (b"L3:0", TextFault::NoEquals),
    (b"L3:2=3", TextFault::BadDomain),
    (b"L3:=3", TextFault::BadDomain),
    (b"L3:0=3;0=3", TextFault::Twice { domain: 0 }),
    (b"L3:1=3\nL3:1=0", TextFault::Twice { domain: 1 }),
    (b"L3:0=3;1=0x", TextFault::NotHex),
    (b"L3:0=10000000000000000", TextFault::NotHex),
    (
        b"L3:0=0",
        TextFault::Mask {
            bits: 0,
            fault: CbmFault::Range,
        },
    ),
    (
        b"L3:0=10",
        TextFault::Mask {
            bits: 16,
            fault: CbmFault::Range,
        },
    ),
    (
        b"L3:0=5",
        TextFault::Mask {
            bits: 5,
            fault: CbmFault::Gaps,
        },
    ),
    (
        b"L3:0=4",
        TextFault::Mask {
            bits: 4,
            fault: CbmFault::TooFew,
        },
    ),
    (
        b"L3:0=5;2=3",
        TextFault::Mask {
            bits: 5,
            fault: CbmFault::Gaps,
        },
    ),
];

#[test]
fn bad_texts_are_refused(rt: HostRuntime) {
    for (text, want) in BAD {
        assert_eq!(rt; read_small(text).err(), Some(want));
    }
}

const ONE: [Assignment; 1] = [Assignment {
    domain: 0,
    mask: 12,
}];

const TWO: [Assignment; 2] = [
    Assignment { domain: 1, mask: 3 },
    Assignment {
        domain: 0,
        mask: 15,
    },
];

fn reads(text: &[u8], want: &[Assignment]) -> bool {
    match read_small(text) {
        Ok(all) => all.as_slice() == want,
        Err(_) => false,
    }
}

fn prints(alloc: Global, masks: &[Assignment], ways: u8, want: &[u8]) -> Result<bool, NoMemory>
    requires few { length masks.now ≤ 8 }
    requires ways { ways ≤ 32 }
{
    let mut out = TextBuf::with_room(alloc, 128)?;
    print(masks, ways, &mut out);
    Ok(out.bytes() == want)
}

#[test]
fn good_texts_are_read_and_printed(rt: HostRuntime) {
    assert!(rt; reads(b" L3 : 0 = 0xC ".as_slice(), ONE.as_slice()));
    assert!(rt; reads(b"L3:1=3;0=0F;".as_slice(), TWO.as_slice()));
    assert!(rt; reads(b"L3:1=3;\n\tL3:0=f".as_slice(), TWO.as_slice()));
    assert_eq!(rt;
        prints(rt.alloc(), ONE.as_slice(), 4, b"L3:0=c".as_slice()),
        Ok(true)
    );
    assert_eq!(rt;
        prints(
            rt.alloc(),
            TWO.as_slice(),
            20,
            b"L3:1=00003;0=0000f".as_slice()
        ),
        Ok(true)
    );
}
