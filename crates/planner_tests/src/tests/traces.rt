//! A trace in pieces.

ghost use Rattle.std.specs.Prelude.{◌≡◌, IfOk};

use rc_base::NoMemory;
use std::alloc::Global;
use std::test::Fail;
use way_curve::{BadTrace, LevelShapes, Trace};

// A trace for caches of so many sets, 1 at least.
fn trace_of(alloc: Global, sets: u32) -> Result<Trace, NoMemory>
    ensures { IfOk result (λ t. t.bytes ≡ 0) }
{
    if sets == 0 {
        return Err(NoMemory);
    }
    let levels = LevelShapes { l1: None, l2: None };
    Trace::create(alloc, levels, sets, None, false)
}

#[test]
fn pieces_end_anywhere(rt: HostRuntime) -> Result<(), Fail> {
    // The use of 7e to 81 is one of lines 1 and 2. All lines are 0 0 1 2 1 2 0, and the last line of the text has no newline.
    let mut trace = trace_of(rt.alloc(), 1)?;
    trace.take(b"==1== Lackey\nI  0,4\r\n L 0,");
    trace.take(b"4\n M 7e,4\n S 0,4");
    assert_eq!(rt; trace.bad_line(), None);
    let filtered = trace.finish()?;
    let curves = filtered.counted();
    assert_eq!(rt; curves.of_all().uses(), 7);
    assert_eq!(rt; curves.of_all().hits(1), 1);
    assert_eq!(rt; curves.of_all().hits(2), 3);
    assert_eq!(rt; curves.of_all().hits(3), 4);
    assert_eq!(rt; curves.of_data().uses(), 6);
    assert_eq!(rt; curves.of_data().hits(2), 2);
    assert_eq!(rt; curves.of_code().uses(), 1);
    Ok(())
}

// How many uses the first 64 bytes of a trace have, and how many of them hit with so many ways, 32 at most.
fn hits_of(alloc: Global, text: &[u8], sets: u32, ways: u8) -> Result<(u64, u64), Fail> {
    let mut trace = trace_of(alloc, sets)?;
    trace.take(&text[..text.len().min(64)]);
    let filtered = trace.finish()?;
    let all = filtered.counted().of_all();
    Ok((all.uses(), all.hits(ways.min(32))))
}

// In two sets the stores to lines 0, 2 and 4 come after two other lines of their set, and those to lines 1 and 3 after one.
const TWO_SETS: &[u8] = b" M 0,320\n L 100,1\n L 0,1\n";

// Traces, how many sets and ways there are, and the uses and hits. After its stores line 4 is still the last of its set, and line 0 comes
// after 2 and 4. With more sets than lines each line is the last of its set. Of 65 lines in two sets 33 come after 32 others, which is too
// far for 32 ways, and 32 after 31 others.
const MODIFIED: [(&[u8], u32, u8, u64, u64); 6] = [
    (TWO_SETS, 2, 1, 12, 1),
    (TWO_SETS, 2, 2, 12, 3),
    (TWO_SETS, 2, 3, 12, 7),
    (b" M 0,320\n", 8, 1, 10, 5),
    (b" M 3f,4096\n", 2, 31, 130, 0),
    (b" M 3f,4096\n", 2, 32, 130, 32),
];

#[test]
fn modified_lines_are_loaded_and_then_stored(rt: HostRuntime) -> Result<(), Fail> {
    for (text, sets, ways, uses, hits) in MODIFIED {
        let (found, hit) = hits_of(rt.alloc(), text, sets, ways)?;
        assert_eq!(rt; found, uses);
        assert_eq!(rt; hit, hits);
    }
    Ok(())
}

#[test]
fn bad_lines_are_told(rt: HostRuntime) -> Result<(), Fail> {
    let mut trace = trace_of(rt.alloc(), 1)?;
    trace.take(b"I  0,4\n\n Q");
    assert_eq!(rt; trace.bad_line(), None);
    trace.take(b" 1,1\nI  0,4\n");
    assert_eq!(rt; trace.bad_line(), Some(BadTrace { line: 3 }));
    let bad = match trace.finish() {
        Ok(_) => None,
        Err(bad) => Some(bad),
    };
    assert_eq!(rt; bad, Some(BadTrace { line: 3 }));
    Ok(())
}
