//! Curves, traces, streams and scripts with their reports and plans, worked out by hand.

mod any_orders;
mod applied;
mod comparisons;
mod curve_calls;
mod curves;
mod filters;
mod first_levels;
mod first_uses;
mod flushed_lines;
mod plans;
mod samples;
mod share_calls;
mod share_texts;
mod share_words;
mod shares;
mod traces;
mod used_groups;

use call_rim::Status;
use plan_top::top_plan;
use rc_stream::{MemSink, MemSource};
use std::alloc::Global;
use std::test::Fail;

/// The status of these words and an input that comes in pieces of so many bytes, with failing calls of the source, and what is
/// written.
pub(crate) fn told_by(
    alloc: Global,
    texts: &[&str],
    input: &[u8],
    piece: usize,
    failing: &[u32],
) -> Result<(Status, Vec<u8>), Fail> {
    let mut words = Vec::new(alloc);
    for text in texts {
        words.push(String::from_str(alloc, text)?)?;
    }
    let mut source = MemSource::create(alloc, input, piece.max(1), failing)?;
    let mut sink = MemSink::create(alloc, 1 << 14, 4096, &[])?;
    let ended = top_plan(alloc, &words, &mut source, &mut sink);
    let taken = Vec::from_slice(alloc, sink.taken())?;
    Ok((ended.status, taken))
}
