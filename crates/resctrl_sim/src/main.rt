//! The program: reads a script from standard input and writes its report to standard output.
#![tactic(auto)]

use rc_stream::{OpenGate, StdSink, StdSource};
use resctrl_top::run_program;
use std::env;
use std::process::ExitCode;
use top_parts::words_of;

fn main(rt: HostRuntime) -> ExitCode {
    let words = words_of(rt.alloc(), env::args(&rt));
    let mut source = StdSource::new(rt.stdin());
    let mut sink = StdSink::new(rt.stdout());
    run_program(&rt, rt.alloc(), words, &mut source, &mut sink, &OpenGate)
}
