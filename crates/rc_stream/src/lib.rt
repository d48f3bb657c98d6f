//! Where the bytes of a script come from, where the report goes, and where the workers of a run can be held.
#![tactic(auto)]

mod answers;
mod calls;
mod counted_reader;
mod counted_writer;
pub mod gate;
pub mod mem_sink;
pub mod mem_source;
pub mod std_sink;
pub mod std_source;
pub mod streams;

pub use gate::{Gate, OpenGate, Point};
pub use mem_sink::MemSink;
pub use mem_source::MemSource;
pub use std_sink::StdSink;
pub use std_source::StdSource;
pub use streams::{Failed, Sink, Source};
