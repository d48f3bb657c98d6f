//! Inputs that their beginning refuses: they are read to their end, and what comes first there is told.

use crate::faults::small_programs::Unmarked;
use call_rim::{Status, TOO_LARGE, call_early};
use rc_stream::{MemSink, MemSource};
use std::alloc::Global;
use std::test::Fail;

// What an input begins with, how many dots follow, and what it ends with; the calls of the source that fail; and the status, what the
// program found, and what is written.
type Row = (
    &'static str,
    usize,
    &'static str,
    &'static [u32],
    Status,
    Option<usize>,
    &'static str,
);

const MARKED: &str = "marked\n";

// The program takes 1,048,579 bytes, and a beginning has 1,048,576: 16 reads of 65,536 bytes. The 17th finds three bytes more and the
// 18th the end. The last byte but the mark of the third row comes after the beginning.
const OF_A_BEGINNING: [Row; 11] = [
    ("!", 2, "", &[], Status::Refused, None, MARKED),
    ("!", 1_048_578, "", &[], Status::Refused, None, MARKED),
    ("", 1_048_578, "!", &[], Status::Refused, None, MARKED),
    ("!", 1_048_575, "", &[], Status::Refused, None, MARKED),
    (
        "",
        1_048_579,
        "",
        &[],
        Status::Done,
        Some(1_048_579),
        "counted\n",
    ),
    (
        "",
        1_048_576,
        "",
        &[],
        Status::Done,
        Some(1_048_576),
        "counted\n",
    ),
    ("!", 1_048_579, "", &[], Status::Refused, None, TOO_LARGE),
    ("", 1_048_580, "", &[], Status::Refused, None, TOO_LARGE),
    ("!", 1_048_578, "", &[17], Status::ReadFault, None, ""),
    ("!", 1_048_578, "", &[18], Status::ReadFault, None, ""),
    ("!", 1_048_578, "", &[19], Status::Refused, None, MARKED),
];

// An input of these bytes, with dots between them.
fn input_of(alloc: Global, first: &str, dots: usize, last: &str) -> Result<Vec<u8>, Fail> {
    let mut input = Vec::from_slice(alloc, first.as_bytes())?;
    let between = vec![in alloc; b'.'; dots]?;
    input.extend_from_slice(&between)?;
    input.extend_from_slice(last.as_bytes())?;
    Ok(input)
}

// The call of a source with this input and failing calls, which gives 65,536 bytes at once.
fn told_of(
    alloc: Global,
    input: &[u8],
    reads: &[u32],
) -> Result<(Status, Option<usize>, Vec<u8>), Fail> {
    let mut source = MemSource::create(alloc, input, 65_536, reads)?;
    let mut sink = MemSink::create(alloc, 64, 64, &[])?;
    let ended = call_early(alloc, &Unmarked, &mut source, &mut sink);
    let taken = Vec::from_slice(alloc, sink.taken())?;
    Ok((ended.status, ended.outcome, taken))
}

#[test]
fn inputs_that_begin_badly_have_their_endings(rt: HostRuntime) -> Result<(), Fail> {
    for (first, dots, last, reads, status, outcome, text) in OF_A_BEGINNING {
        let input = input_of(rt.alloc(), first, dots, last)?;
        let (is, found, taken) = told_of(rt.alloc(), &input, reads)?;
        assert_eq!(rt; is, status, "{first} {dots}");
        assert_eq!(rt; found, outcome, "{first} {dots}");
        assert_eq!(rt; taken.as_slice(), text.as_bytes(), "{first} {dots}");
    }
    Ok(())
}
