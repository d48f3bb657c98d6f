//! Scripts with their reports, which were worked out by hand. `scripts_have_their_reports` plays all tables of rows.

mod accesses;
mod answers;
mod bad_lines;
mod bad_ops;
mod bad_scripts;
mod binding_texts;
mod counts;
mod files;
mod flags;
mod forms;
mod gates;
mod groups;
mod journals;
mod limbo;
mod limits;
mod lines;
mod listings;
mod machines;
mod masks;
mod modes;
mod monitors;
mod overlaps;
mod regions;
mod rules;
mod runs;
mod sparse_masks;
mod tasks_and_cpus;
mod thresholds;
mod windows;

use rc_stream::{MemSink, MemSource};
use resctrl_top::{Status, top_step};
use std::alloc::Global;
use std::process::Abort;
use std::test::Fail;

/// The words of a call, the script that it reads, and its report.
pub(crate) type Row = (&'static [&'static str], &'static str, &'static str);

/// The words for a report without what flags add.
pub(crate) const STEP: &[&str] = &["step"];

/// The words for a report with the entries of the slices.
pub(crate) const WITH_JOURNAL: &[&str] = &["step", "--journal"];

/// The words for the windows of a run and its counts.
pub(crate) const WITH_WINDOWS: &[&str] = &["step", "--quiet", "--windows"];

/// These words.
pub(crate) fn words(alloc: Global, texts: &[&str]) -> Result<Vec<String>, Fail> {
    let mut words = Vec::new(alloc);
    for text in texts {
        words.push(String::from_str(alloc, text)?)?;
    }
    Ok(words)
}

/// The status of these words and a script, and what is written.
pub(crate) fn told_by(
    alloc: Global,
    texts: &[&str],
    script: &[u8],
) -> Result<(Status, Vec<u8>), Fail> {
    let words = words(alloc, texts)?;
    let mut source = MemSource::create(alloc, script, 1 << 20, &[])?;
    let mut sink = MemSink::create(alloc, 1 << 14, 4096, &[])?;
    let ended = top_step(alloc, &words, &mut source, &mut sink);
    let taken = Vec::from_slice(alloc, sink.taken())?;
    Ok((ended.status, taken))
}

/// The status of a script, and what it writes.
pub(crate) fn told(alloc: Global, script: &[u8]) -> Result<(Status, Vec<u8>), Fail> {
    told_by(alloc, STEP, script)
}

// Plays each script by its words, and compares what is written.
fn reports_are(rt: &impl Abort, alloc: Global, rows: &[Row]) -> Result<(), Fail> {
    for (texts, script, report) in rows {
        let (status, taken) = told_by(alloc, texts, script.as_bytes())?;
        assert_eq!(rt; status, Status::Done, "{script}");
        assert_eq!(rt; taken.as_slice(), report.as_bytes(), "{script}");
    }
    Ok(())
}

#[test]
fn scripts_have_their_reports(rt: HostRuntime) -> Result<(), Fail> {
    for rows in [
        accesses::ROWS.as_slice(),
        binding_texts::ROWS.as_slice(),
        counts::ROWS.as_slice(),
        files::ROWS.as_slice(),
        flags::ROWS.as_slice(),
        groups::ROWS.as_slice(),
        journals::ROWS.as_slice(),
        limbo::ROWS.as_slice(),
        lines::ROWS.as_slice(),
        listings::ROWS.as_slice(),
        masks::ROWS.as_slice(),
        modes::ROWS.as_slice(),
        monitors::ROWS.as_slice(),
        overlaps::ROWS.as_slice(),
        regions::ROWS.as_slice(),
        rules::ROWS.as_slice(),
        sparse_masks::ROWS.as_slice(),
        tasks_and_cpus::ROWS.as_slice(),
        thresholds::ROWS.as_slice(),
        windows::ROWS.as_slice(),
    ] {
        reports_are(&rt, rt.alloc(), rows)?;
    }
    Ok(())
}
