//! The program: reads a script, or a script with journals, from standard input, and writes the export or the verdict to standard output.
#![tactic(auto)]

use check_top::run_check;
use rc_stream::{OpenGate, StdSink, StdSource};
use std::env;
use std::process::ExitCode;
use top_parts::words_of;

fn main(rt: HostRuntime) -> ExitCode {
    let words = words_of(rt.alloc(), env::args(&rt));
    let mut source = StdSource::new(rt.stdin());
    let mut sink = StdSink::new(rt.stdout());
    run_check(&rt, rt.alloc(), words, &mut source, &mut sink, &OpenGate)
}
