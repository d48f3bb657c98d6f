//! The program: reads a script with journals from standard input, and writes the script with an order that makes them, or the
//! simulator's report of them, to standard output.
#![tactic(auto)]

use rc_stream::{StdSink, StdSource};
use replay_top::run_replayer;
use std::env;
use std::process::ExitCode;
use top_parts::words_of;

fn main(rt: HostRuntime) -> ExitCode {
    let words = words_of(rt.alloc(), env::args(&rt));
    let mut source = StdSource::new(rt.stdin());
    let mut sink = StdSink::new(rt.stdout());
    run_replayer(rt.alloc(), words, &mut source, &mut sink)
}
