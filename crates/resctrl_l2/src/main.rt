//! The program: reads a pair script on two levels from standard input, and writes the report of its run to standard output.
#![tactic(auto)]

use pair_top::{given_words, run_l2};
use rc_stream::{StdSink, StdSource};
use std::env;
use std::process::ExitCode;

fn main(rt: HostRuntime) -> ExitCode {
    let words = given_words(rt.alloc(), env::args(&rt));
    let mut source = StdSource::new(rt.stdin());
    let mut sink = StdSink::new(rt.stdout());
    run_l2(rt.alloc(), words, &mut source, &mut sink)
}
