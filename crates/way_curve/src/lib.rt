//! How many hits a private cache of each number of ways would have, counted in one pass over the lines that are used (`Curve`); the
//! same of a trace that Valgrind's lackey wrote, whose text comes in pieces (`Trace`), of all its uses, or of those that an L1 and an
//! L2 before the cache leave (`FirstLevels`), and of all these or of a sample of the lines; and the report of that. What is printed is added to a text that has room for it. A call that runs out of memory answers
//! NoMemory.
//!
//! A cache of w ways that replaces the line used longest ago keeps the w lines used last of each set. So one list of the last
//! 32 lines of a set serves every number of ways: a line at place d of the list hits with more than d ways, and with no fewer.
//! A line that is dropped from the caches leaves a hole in the list. The next line that comes to the front moves only those before the
//! hole, so the lines of the first w places, and no others, are those of a cache of w ways.
//!
//! Cold misses, the first use of each line, are counted only where that is asked for (`NotedUses`): that takes every line that was ever
//! used, which is memory without bound. A line that comes back after 32 others of its set counts as a miss for every number of ways,
//! as one that is new does.
#![tactic(auto)]

mod asked_first;
pub mod curve;
pub mod curves;
pub mod different_lines;
mod distances;
pub mod filter_limits;
mod filter_text;
pub mod filter_theorems;
pub mod filtered_curves;
pub mod first_level;
pub mod first_levels;
pub mod first_uses;
mod holes;
pub mod level_report;
pub mod limits;
mod line_joiner;
pub mod noted_uses;
mod numbers;
mod recent_lines;
pub mod refusal;
pub mod report;
pub mod report_limits;
pub mod report_theorems;
mod said;
pub mod sample;
pub mod sampled_curves;
mod shifting;
mod splitting;
pub mod theorems;
pub mod trace;
pub mod trace_filter;
mod trace_lines;
pub mod trace_theorems;

pub use curve::Curve;
pub use curves::UseCurves;
pub use different_lines::DifferentLines;
pub use filter_limits::MOST_FILTERED_BYTES;
pub use filtered_curves::FilteredCurves;
pub use first_level::{FirstLevel, LevelShape};
pub use first_levels::{FirstLevels, LevelShapes};
pub use first_uses::FirstUses;
pub use level_report::push_levels;
pub use limits::{MOST_LINE_BYTES, MOST_TRACE_BYTES};
pub use noted_uses::NotedUses;
pub use refusal::push_bad_line;
pub use report::{push_report, push_sample};
pub use report_limits::{
    MOST_LEVELS_BYTES, MOST_REFUSAL_BYTES, MOST_REPORT_BYTES, MOST_SAMPLE_BYTES,
};
pub use sample::is_sampled;
pub use sampled_curves::SampledCurves;
pub use trace::{BadTrace, Trace};
pub use trace_filter::TraceFilter;
