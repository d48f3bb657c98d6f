//! The program: reads a trace or a script from standard input, and writes the curves or the plan to standard output.
#![tactic(auto)]

use plan_top::run_plan;
use rc_stream::{StdSink, StdSource};
use std::env;
use std::process::ExitCode;
use top_parts::words_of;

fn main(rt: HostRuntime) -> ExitCode {
    let words = words_of(rt.alloc(), env::args(&rt));
    let mut source = StdSource::new(rt.stdin());
    let mut sink = StdSink::new(rt.stdout());
    run_plan(rt.alloc(), words, &mut source, &mut sink)
}
