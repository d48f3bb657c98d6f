//! Small programs, called with faults and without.

use crate::faults::small_programs::{Count, Echo};
use call_rim::{Status, TOO_LARGE, call, stream, usage};
use rc_stream::{MemSink, MemSource};
use std::alloc::Global;
use std::test::Fail;

// An input, the calls of the source and of the sink that fail, and the status, what the program found, and what is written.
type Row<T> = (
    &'static str,
    &'static [u32],
    &'static [u32],
    Status,
    Option<T>,
    &'static str,
);

// The call after the one that meets the end fails in the second row, and is not made.
const OF_A_WHOLE: [Row<usize>; 7] = [
    ("abc", &[], &[], Status::Done, Some(3), "abc"),
    ("abc", &[4], &[], Status::Done, Some(3), "abc"),
    ("", &[], &[], Status::Done, Some(0), ""),
    ("abcd", &[], &[], Status::Refused, None, TOO_LARGE),
    ("abc", &[3], &[], Status::ReadFault, None, ""),
    ("abc", &[], &[2], Status::WriteFault, Some(3), "ab"),
    ("abc", &[], &[3], Status::WriteFault, Some(3), "abc"),
];

const OF_A_STREAM: [Row<u64>; 6] = [
    ("abcdefg", &[], &[], Status::Done, Some(7), "counted\n"),
    ("abcdefg", &[6], &[], Status::Done, Some(7), "counted\n"),
    ("", &[], &[], Status::Done, Some(0), "counted\n"),
    (
        "abcdefgh",
        &[5],
        &[],
        Status::Refused,
        None,
        "more than seven\n",
    ),
    ("abcdefg", &[4], &[], Status::ReadFault, None, ""),
    ("abcdefg", &[], &[1], Status::WriteFault, Some(7), ""),
];

// The call of a source with these bytes and failing calls, and of a sink with these failing calls. Both move two bytes at once.
fn told_of_whole(
    alloc: Global,
    input: &str,
    reads: &[u32],
    writes: &[u32],
) -> Result<(Status, Option<usize>, Vec<u8>), Fail> {
    let mut source = MemSource::create(alloc, input.as_bytes(), 2, reads)?;
    let mut sink = MemSink::create(alloc, 64, 2, writes)?;
    let ended = call(alloc, &Echo, &mut source, &mut sink);
    let taken = Vec::from_slice(alloc, sink.taken())?;
    Ok((ended.status, ended.outcome, taken))
}

// The same, piece by piece.
fn told_of_stream(
    alloc: Global,
    input: &str,
    reads: &[u32],
    writes: &[u32],
) -> Result<(Status, Option<u64>, Vec<u8>), Fail> {
    let mut source = MemSource::create(alloc, input.as_bytes(), 2, reads)?;
    let mut sink = MemSink::create(alloc, 64, 2, writes)?;
    let ended = stream(alloc, &Count, &mut source, &mut sink);
    let taken = Vec::from_slice(alloc, sink.taken())?;
    Ok((ended.status, ended.outcome, taken))
}

#[test]
fn whole_inputs_have_their_endings(rt: HostRuntime) -> Result<(), Fail> {
    for (input, reads, writes, status, outcome, text) in OF_A_WHOLE {
        let (is, found, taken) = told_of_whole(rt.alloc(), input, reads, writes)?;
        assert_eq!(rt; is, status);
        assert_eq!(rt; found, outcome);
        assert_eq!(rt; taken.as_slice(), text.as_bytes());
    }
    Ok(())
}

#[test]
fn streams_have_their_endings(rt: HostRuntime) -> Result<(), Fail> {
    for (input, reads, writes, status, outcome, text) in OF_A_STREAM {
        let (is, found, taken) = told_of_stream(rt.alloc(), input, reads, writes)?;
        assert_eq!(rt; is, status);
        assert_eq!(rt; found, outcome);
        assert_eq!(rt; taken.as_slice(), text.as_bytes());
    }
    Ok(())
}

#[test]
fn a_usage_line_is_written(rt: HostRuntime) -> Result<(), Fail> {
    let mut sink = MemSink::create(rt.alloc(), 64, 64, &[])?;
    let ended = usage::<u64, MemSink>(&mut sink, b"usage: count\n");
    assert_eq!(rt; ended.status, Status::Usage);
    assert_eq!(rt; ended.outcome, None);
    assert_eq!(rt; sink.taken(), b"usage: count\n".as_slice());
    Ok(())
}
