//! Streams that fail, scripts that are cut or as large as can be, and changes beside accesses.

mod beginnings;
mod changes;
mod cuts;
mod endings;
mod failing_streams;
mod largest;
mod rim;
mod small_programs;
mod tenants;

use rc_stream::{Gate, MemSink, MemSource, OpenGate};
use resctrl_top::{Status, top};
use std::alloc::Global;
use std::sync::Wait;
use std::test::Fail;
use std::thread::Threads;

/// Four accesses to three lines.
pub(crate) const FOUR_ACCESSES: &[u8] = b"machine sets=1 ways=4
tasks 1
phase
thread
access 1 0 0
access 1 0 64
access 1 0 128
access 1 0 0
";

/// Their report, which has 126 bytes.
pub(crate) const THEIR_REPORT: &[u8] = b"group 0 /: accesses 4 hits 1 misses 3
domain 0: valid 3 of 4, rmid 0 3
total: commands 0 refused 0 accesses 4 hits 1 misses 3
";

/// How a call ended, whether it gave journals, and what the sink took.
#[derive(Drop)]
pub(crate) struct Ending {
    pub(crate) status: Status,
    pub(crate) has_journals: bool,
    pub(crate) taken: Vec<u8>,
}

/// These words.
pub(crate) fn words(alloc: Global, texts: &[&str]) -> Result<Vec<String>, Fail> {
    let mut words = Vec::new(alloc);
    for text in texts {
        words.push(String::from_str(alloc, text)?)?;
    }
    Ok(words)
}

/// What these words tell of a script. The source gives 8 bytes at once and the sink takes 16, the calls of these numbers fail, from 1
/// for each of the two, and the gate may hold workers.
pub(crate) fn told_by<R: Threads + Wait + Sync, G: Gate>(
    rt: &R,
    alloc: Global,
    texts: &[&str],
    script: &[u8],
    reads: &[u32],
    writes: &[u32],
    gate: &G,
) -> Result<Ending, Fail> {
    let words = words(alloc, texts)?;
    let mut source = MemSource::create(alloc, script, 8, reads)?;
    let mut sink = MemSink::create(alloc, 4096, 16, writes)?;
    let ended = top(rt, alloc, &words, &mut source, &mut sink, gate);
    Ok(Ending {
        status: ended.status,
        has_journals: ended.journals.is_some(),
        taken: Vec::from_slice(alloc, sink.taken())?,
    })
}

/// What these words tell of a script where no call fails and nobody is held.
pub(crate) fn told<R: Threads + Wait + Sync>(
    rt: &R,
    alloc: Global,
    texts: &[&str],
    script: &[u8],
) -> Result<Ending, Fail> {
    told_by(rt, alloc, texts, script, &[], &[], &OpenGate)
}
