//! Exports with what they write, worked out by hand, and how each call ends.

use crate::tests::words;
use check_top::{CheckStatus, check_step};
use rc_stream::{MemSink, MemSource};
use std::alloc::Global;
use std::test::Fail;

/// The script of the worked run. Its last line has no newline.
pub(crate) const SCRIPT: &str = "machine sets=1 ways=4
tasks 1
phase
thread
access 1 0 0
write /schemata L3:0=c
access 1 0 0";

/// Its export.
pub(crate) const EXPORT: &str = "machine sets=1 ways=4
tasks 1
phase
thread
access 1 0 0
write /schemata L3:0=c
access 1 0 0
journal 1
tree 0 1 0 0 0
slice 0 0 3
access 0 0 0 0 0 15 0 0 0
raise 0 1 1
access 0 2 1 0 0 12 0 1 0
end
";

/// The status of these words and this input, with failing calls of the source and the sink, whether there are journals, and what is
/// written.
pub(crate) fn told_by(
    alloc: Global,
    texts: &[&str],
    input: &str,
    reads: &[u32],
    writes: &[u32],
) -> Result<(CheckStatus, bool, Vec<u8>), Fail> {
    let words = words(alloc, texts)?;
    let mut source = MemSource::create(alloc, input.as_bytes(), 1 << 20, reads)?;
    let mut sink = MemSink::create(alloc, 1 << 14, 4096, writes)?;
    let ended = check_step(alloc, &words, &mut source, &mut sink);
    let taken = Vec::from_slice(alloc, sink.taken())?;
    Ok((ended.status, ended.journals.is_some(), taken))
}

#[test]
fn scripts_are_exported_with_their_journals(rt: HostRuntime) -> Result<(), Fail> {
    let (status, has_journals, taken) = told_by(rt.alloc(), &["export", "step"], SCRIPT, &[], &[])?;
    assert_eq!(rt; status, CheckStatus::Done);
    assert!(rt; has_journals);
    assert_eq!(rt; taken.as_slice(), EXPORT.as_bytes());
    Ok(())
}

// Words, an input, failing calls of the source and of the sink, and the status and what is written.
type Ending = (
    &'static [&'static str],
    &'static str,
    &'static [u32],
    &'static [u32],
    CheckStatus,
    &'static str,
);

const ENDINGS: [Ending; 7] = [
    (
        &["check", "step"],
        EXPORT,
        &[],
        &[],
        CheckStatus::Usage,
        "usage: resctrl_check export step|export run|check\n",
    ),
    (
        &["check"],
        "machine ways=0\njournal 1\n",
        &[],
        &[],
        CheckStatus::Refused,
        "line 1: bad machine line\n",
    ),
    (
        &["check"],
        SCRIPT,
        &[],
        &[],
        CheckStatus::Refused,
        "line 0: no journal\n",
    ),
    (
        &["export", "step"],
        EXPORT,
        &[],
        &[],
        CheckStatus::Refused,
        "line 8: unknown word\n",
    ),
    (&["check"], EXPORT, &[1], &[], CheckStatus::ReadFault, ""),
    (&["check"], EXPORT, &[], &[1], CheckStatus::WriteFault, ""),
    (
        &["export", "step"],
        SCRIPT,
        &[],
        &[1],
        CheckStatus::WriteFault,
        "",
    ),
];

#[test]
fn every_call_has_its_ending(rt: HostRuntime) -> Result<(), Fail> {
    for (texts, input, reads, writes, due, line) in ENDINGS {
        let (status, has_journals, taken) = told_by(rt.alloc(), texts, input, reads, writes)?;
        assert_eq!(rt; status, due, "{line}");
        assert_eq!(rt; has_journals, due == CheckStatus::WriteFault, "{line}");
        assert_eq!(rt; taken.as_slice(), line.as_bytes(), "{line}");
    }
    Ok(())
}
