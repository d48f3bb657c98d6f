//! Scripts with their reports, worked out by hand.

mod cdp;
mod levels;

use call_rim::Status;
use pair_text::PairKind;
use pair_top::{top_cdp, top_l2};
use rc_stream::{MemSink, MemSource};
use std::alloc::Global;
use std::test::Fail;

// What is given to a program: the kind of its scripts, the words, the input, and the failing calls of the source and of the sink.
#[derive(Drop)]
struct Given<'a> {
    kind: PairKind,
    texts: &'a [&'a str],
    input: &'a str,
    reads: &'a [u32],
    writes: &'a [u32],
}

impl<'a> Given<'a> {
    // These, with streams that do not fail.
    fn of(kind: PairKind, texts: &'a [&'a str], input: &'a str) -> Given<'a> {
        Given {
            kind,
            texts,
            input,
            reads: &[],
            writes: &[],
        }
    }
}

// How a call ended: its status, whether it has journals, and what was written.
#[derive(Drop)]
struct Told {
    status: Status,
    has_journals: bool,
    taken: Vec<u8>,
}

// How the call with these ends.
fn told_by(alloc: Global, given: &Given) -> Result<Told, Fail> {
    let mut words = Vec::new(alloc);
    for text in given.texts {
        words.push(String::from_str(alloc, text)?)?;
    }
    let mut source = MemSource::create(alloc, given.input.as_bytes(), 1 << 20, given.reads)?;
    let mut sink = MemSink::create(alloc, 1 << 14, 4096, given.writes)?;
    let (status, has_journals) = match given.kind {
        PairKind::Cdp => {
            let ended = top_cdp(alloc, &words, &mut source, &mut sink);
            (ended.status, ended.journals.is_some())
        }
        PairKind::Levels => {
            let ended = top_l2(alloc, &words, &mut source, &mut sink);
            (ended.status, ended.journals.is_some())
        }
    };
    let taken = Vec::from_slice(alloc, sink.taken())?;
    Ok(Told {
        status,
        has_journals,
        taken,
    })
}
