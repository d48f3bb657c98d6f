//! Lines that lackey wrote.

use lackey_text::{BadLine, LackeyKind, LackeyLine, LineUse, read_line};
use std::alloc::{AllocError, Global};
use std::test::Fail;

// What a line of a trace says that is a use.
fn used(kind: LackeyKind, addr: u64, size: u32) -> Result<LackeyLine, BadLine> {
    Ok(LackeyLine::Use { kind, addr, size })
}

#[test]
fn lines_of_lackey_are_read(rt: HostRuntime) -> Result<(), Fail> {
    assert_eq!(rt;
        read_line(b"==5421== Lackey, an example Valgrind tool"),
        Ok(LackeyLine::Skip)
    );
    assert_eq!(rt;
        read_line(b"I  0023C790,2"),
        used(LackeyKind::Code, 0x23_c790, 2)
    );
    assert_eq!(rt;
        read_line(b" S BE80199C,4"),
        used(LackeyKind::Store, 0xbe80_199c, 4)
    );
    assert_eq!(rt;
        read_line(b" L BE801950,4"),
        used(LackeyKind::Load, 0xbe80_1950, 4)
    );
    assert_eq!(rt;
        read_line(b" M 0025747C,1"),
        used(LackeyKind::Modify, 0x25_747c, 1)
    );
    assert_eq!(rt; read_line(b" Q 0025747C,1"), Err(BadLine));
    Ok(())
}

// The uses of lines of memory by a line; none where it is none of a trace.
fn uses_of(alloc: Global, line: &[u8]) -> Result<Vec<LineUse>, AllocError> {
    match read_line(line) {
        Ok(said) => said.uses().collect(alloc),
        Err(BadLine) => Ok(Vec::new(alloc)),
    }
}

#[test]
fn modified_data_is_used_twice(rt: HostRuntime) -> Result<(), Fail> {
    // The bytes from 7e to 81 are of lines 1 and 2.
    let uses = uses_of(rt.alloc(), b" M 7e,4")?;
    let one = LineUse {
        line: 1,
        code: false,
    };
    let two = LineUse {
        line: 2,
        code: false,
    };
    assert_eq!(rt; uses.as_slice(), [one, two, one, two].as_slice());
    Ok(())
}
