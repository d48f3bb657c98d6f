//! Calls with what they write, worked out by hand.

mod report_endings;
mod reports;

use call_rim::Status;
use rc_stream::{MemSink, MemSource};
use replay_top::top_replay;
use std::alloc::Global;
use std::test::Fail;

// Two threads use one line, the second thread first: the first access takes its tag, and then waits for the second one to fill.
pub(crate) const RACE: &str = "machine sets=1 ways=4
tasks 1
phase
thread
access 1 0 0
thread
access 1 0 0
journal 1
slice 0 0 2
access 1 0 0 0 0 15 0 0 0
access 0 0 0 0 0 15 0 1 0
end
";

// Its script with that order. What comes after the list goes on by itself.
const ORDERED: &str = "machine sets=1 ways=4
tasks 1
phase
order 0 1 1
thread
access 1 0 0
thread
access 1 0 0
";

// The same script after an order of its own, which is another.
const ORDERED_OTHERWISE: &str = "machine sets=1 ways=4
tasks 1
phase
order 0 0 1
thread
access 1 0 0
thread
access 1 0 0
journal 1
slice 0 0 2
access 1 0 0 0 0 15 0 0 0
access 0 0 0 0 0 15 0 1 0
end
";

// In each slice the second access of one thread stands before the first one of the other.
pub(crate) const CIRCLE: &str = "machine sets=2 ways=4 slices=2
tasks 1 2
phase
thread
access 1 0 0
access 1 0 64
thread
access 2 0 192
access 2 0 128
journal 1
slice 0 0 2
access 1 1 0 0 0 15 2 0 0
access 0 0 0 0 0 15 0 0 1
slice 0 1 2
access 0 1 0 0 0 15 1 0 0
access 1 0 0 0 0 15 3 0 1
end
";

// Each first access waits for what the other thread can only do after its own first access.
const NO_ORDER: &str = "no order
0.0 touch slice 0.0 epoch 0
1.0 touch slice 0.1 epoch 0
";

// The first access of the race is said to hit on an empty cache.
pub(crate) const NO_RUN: &str = "machine sets=1 ways=4
tasks 1
phase
thread
access 1 0 0
journal 1
slice 0 0 1
access 0 0 0 0 0 15 0 1 0
end
";

// The line for other words.
pub(crate) const USAGE: &str =
    "usage: resctrl_replay order | report [--journal] [--json] [--windows] [--quiet]\n";

/// The status, the exit status and what is written of a call with these words and this input, with failing calls of the source and the
/// sink.
pub(crate) fn told_by(
    alloc: Global,
    texts: &[&str],
    input: &str,
    reads: &[u32],
    writes: &[u32],
) -> Result<(Status, u8, Vec<u8>), Fail> {
    let mut words = Vec::new(alloc);
    for text in texts {
        words.push(String::from_str(alloc, text)?)?;
    }
    let mut source = MemSource::create(alloc, input.as_bytes(), 1 << 20, reads)?;
    let mut sink = MemSink::create(alloc, 1 << 14, 4096, writes)?;
    let ended = top_replay(alloc, &words, &mut source, &mut sink);
    let taken = Vec::from_slice(alloc, sink.taken())?;
    Ok((ended.status, ended.code(), taken))
}

#[test]
fn a_race_has_its_order(rt: HostRuntime) -> Result<(), Fail> {
    for input in [RACE, ORDERED_OTHERWISE] {
        let (status, code, taken) = told_by(rt.alloc(), &["order"], input, &[], &[])?;
        assert_eq!(rt; status, Status::Done);
        assert_eq!(rt; code, 0);
        assert_eq!(rt; taken.as_slice(), ORDERED.as_bytes());
    }
    Ok(())
}

/// Words, an input, failing calls of the source and of the sink, and the status, the exit status and what is written.
pub(crate) type Ending = (
    &'static [&'static str],
    &'static str,
    &'static [u32],
    &'static [u32],
    Status,
    u8,
    &'static str,
);

const ENDINGS: [Ending; 10] = [
    (&["order"], CIRCLE, &[], &[], Status::Done, 6, NO_ORDER),
    (&["order"], NO_RUN, &[], &[], Status::Done, 6, "no D11\n"),
    (&["order", "order"], RACE, &[], &[], Status::Usage, 2, USAGE),
    (
        &["order", "--json"],
        RACE,
        &[],
        &[],
        Status::Usage,
        2,
        USAGE,
    ),
    (&["check"], RACE, &[], &[], Status::Usage, 2, USAGE),
    (
        &["order"],
        "machine ways=0\njournal 1\n",
        &[],
        &[],
        Status::Refused,
        1,
        "line 1: bad machine line\n",
    ),
    (
        &["order"],
        ORDERED,
        &[],
        &[],
        Status::Refused,
        1,
        "line 0: no journal\n",
    ),
    (&["order"], RACE, &[1], &[], Status::ReadFault, 3, ""),
    (&["order"], RACE, &[], &[1], Status::WriteFault, 4, ""),
    (&["order"], CIRCLE, &[], &[1], Status::WriteFault, 4, ""),
];

#[test]
fn every_call_for_an_order_has_its_ending(rt: HostRuntime) -> Result<(), Fail> {
    for (texts, input, reads, writes, due, exit, line) in ENDINGS {
        let (status, code, taken) = told_by(rt.alloc(), texts, input, reads, writes)?;
        assert_eq!(rt; status, due, "{line}");
        assert_eq!(rt; code, exit, "{line}");
        assert_eq!(rt; taken.as_slice(), line.as_bytes(), "{line}");
    }
    Ok(())
}
