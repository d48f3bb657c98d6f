//! How `step` ends by a sink that fails or takes all, and what the sink holds back.

use crate::faults::{FOUR_ACCESSES, THEIR_REPORT, words};
use rc_stream::{MemSink, MemSource};
use resctrl_top::{Status, top_step};
use std::alloc::Global;
use std::test::Fail;

// How a call ended, whether it gave journals, whether the sink holds something back, and what it took.
#[derive(Drop)]
struct Told {
    status: Status,
    has_journals: bool,
    is_held: bool,
    taken: Vec<u8>,
}

// How `step` ends on a source that gives 8 bytes at once and a sink that takes so many, where the calls of these numbers fail.
fn told_by(
    alloc: Global,
    script: &[u8],
    piece: usize,
    reads: &[u32],
    writes: &[u32],
) -> Result<Told, Fail> {
    let words = words(alloc, &["step"])?;
    let mut source = MemSource::create(alloc, script, 8, reads)?;
    let mut sink = MemSink::create(alloc, 1 << 20, piece.max(1), writes)?;
    let ended = top_step(alloc, &words, &mut source, &mut sink);
    Ok(Told {
        status: ended.status,
        has_journals: ended.journals.is_some(),
        is_held: sink.is_held(),
        taken: Vec::from_slice(alloc, sink.taken())?,
    })
}

// The calls of the source and of the sink that fail, and the status, whether there are journals, and what a sink took that takes 16
// bytes at once.
const FAILING: [(&[u32], &[u32], Status, bool, &[u8]); 2] = [
    (&[2], &[], Status::ReadFault, false, b""),
    (
        &[],
        &[3],
        Status::WriteFault,
        true,
        b"group 0 /: accesses 4 hits 1 mis",
    ),
];

#[test]
fn failing_streams_end_the_call(rt: HostRuntime) -> Result<(), Fail> {
    for (reads, writes, status, has_journals, taken) in FAILING {
        let told = told_by(rt.alloc(), FOUR_ACCESSES, 16, reads, writes)?;
        assert_eq!(rt; told.status, status);
        assert_eq!(rt; told.has_journals, has_journals);
        assert_eq!(rt; told.taken.as_slice(), taken);
    }
    Ok(())
}

// The calls of a sink that takes the whole report at once which fail, the status, and whether it holds the report back.
const HANDED_ON: [(&[u32], Status, bool); 2] = [
    (&[], Status::Done, false),
    (&[2], Status::WriteFault, true),
];

#[test]
fn a_report_is_handed_on(rt: HostRuntime) -> Result<(), Fail> {
    for (writes, status, is_held) in HANDED_ON {
        let told = told_by(rt.alloc(), FOUR_ACCESSES, 4096, &[], writes)?;
        assert_eq!(rt; told.status, status);
        assert_eq!(rt; told.is_held, is_held);
        assert_eq!(rt; told.taken.as_slice(), THEIR_REPORT);
    }
    Ok(())
}

// A script of ten thousand commands, whose report has 207,900 bytes.
fn many_ticks(alloc: Global) -> Result<Vec<u8>, Fail> {
    let mut script = Vec::from_slice(alloc, b"machine sets=1 ways=4\nphase\nthread\n")?;
    for _ in 0..10_000 {
        script.extend_from_slice(b"tick\n")?;
    }
    Ok(script)
}

// The call that fails of a sink that takes each piece at once, the status, and how many bytes it took before.
const PIECES: [(u32, Status, usize); 6] = [
    (1, Status::WriteFault, 0),
    (2, Status::WriteFault, 65_536),
    (3, Status::WriteFault, 131_072),
    (4, Status::WriteFault, 196_608),
    (5, Status::WriteFault, 207_900),
    (6, Status::Done, 207_900),
];

#[test]
fn a_report_is_written_in_four_pieces(rt: HostRuntime) -> Result<(), Fail> {
    let script = many_ticks(rt.alloc())?;
    for (failing, status, taken) in PIECES {
        let told = told_by(rt.alloc(), &script, 1 << 20, &[], &[failing])?;
        assert_eq!(rt; told.status, status);
        assert_eq!(rt; told.taken.len(), taken);
    }
    Ok(())
}
