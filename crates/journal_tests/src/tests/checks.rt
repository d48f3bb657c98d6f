//! Checks of journals, with what they write.

ghost use Rattle.std.specs.Prelude.{◌≤◌, length};
ghost use Rattle.check_parts.specs.declared.limits.TheConstants.{MOST_CHECK_BYTES};

use crate::tests::calls::told_by;
use check_parts::{InputError, bad_line_of, verdict_in, verdict_line};
use check_top::CheckStatus;
use rc_base::NoMemory;
use std::alloc::Global;
use std::test::Fail;

// The script of the worked run, and its journals up to its slice.
const HEAD: &str = "machine sets=1 ways=4
tasks 1
phase
thread
access 1 0 0
write /schemata L3:0=c
access 1 0 0
journal 1
tree 0 1 0 0 0
";

// Journals after the head, and what a check says of them.
const CHECKS: [(&str, CheckStatus, &str); 12] = [
    (
        "slice 0 0 3\naccess 0 0 0 0 0 15 0 0 0\nraise 0 1 1\naccess 0 2 1 0 0 12 0 1 0\nend\n",
        CheckStatus::Done,
        "yes\n",
    ),
    (
        "slice 0 0 3\naccess 0 0 0 0 0 15 0 0 0\nraise 0 1 1\naccess 0 2 1 0 0 12 0 0 2\nend\n",
        CheckStatus::No,
        "no D11\n",
    ),
    (
        "slice 0 0 3\naccess 0 0 0 0 0 15 0 0 0\nraise 0 1 1\naccess 0 2 1 0 0 15 0 1 0\nend\n",
        CheckStatus::No,
        "no D13.1\n",
    ),
    (
        "slice 0 0 3\naccess 0 0 0 0 0 15 0 0 0\naccess 0 2 1 0 0 12 0 1 0\nraise 0 1 1\nend\n",
        CheckStatus::No,
        "no D13.3\n",
    ),
    (
        "slice 0 0 2\naccess 0 0 0 0 0 15 0 0 0\nraise 0 1 1\nend\n",
        CheckStatus::No,
        "no D15.2\n",
    ),
    (
        "slice 0 0 3\naccess 0 0 0 0 0 15 0 0 0\nraise 0 1 1\naccess 0 2 1 0 0 12 0 1 0\n",
        CheckStatus::Refused,
        "line 14: bad journal\n",
    ),
    (
        "slice 0 0 3\naccess 0 0 0 0 0 15 0 0 0\nraise 0 1 1\naccess 0 2 1 0 0 12 0 1 0\nend",
        CheckStatus::Refused,
        "line 14: bad journal\n",
    ),
    (
        "slice 0 0 3\njournal 1\n",
        CheckStatus::Refused,
        "line 11: bad journal\n",
    ),
    // The write a second time, an access and an op of no thread among the commands, and a bad line after such a command.
    (
        "tree 0 1 0 0 0\nslice 0 0 0\nend\n",
        CheckStatus::No,
        "no D15.1\n",
    ),
    (
        "tree 0 0 0 0 0\nslice 0 0 0\nend\n",
        CheckStatus::No,
        "no D9\n",
    ),
    (
        "tree 7 0 0 0 1 5\nslice 0 0 0\nend\n",
        CheckStatus::No,
        "no D9\n",
    ),
    (
        "tree 7 0 0 0 0\ntree 7 0 0 0 1\nslice 0 0 0\nend\n",
        CheckStatus::Refused,
        "line 11: bad journal\n",
    ),
];

/// What a check writes that hands back no journals.
pub(crate) fn judged(alloc: Global, bytes: Vec<u8>) -> Result<Vec<u8>, NoMemory>
    requires { length bytes.items ≤ MOST_CHECK_BYTES }
{
    match verdict_in(alloc, bytes) {
        Ok(verdict) => verdict_line(alloc, verdict),
        Err(InputError::Bad(bad)) => bad_line_of(alloc, bad),
        Err(InputError::NoMemory) => Err(NoMemory),
    }
}

#[test]
fn journals_are_checked(rt: HostRuntime) -> Result<(), Fail> {
    for (journals, due, line) in CHECKS {
        let input = format!(in rt.alloc(); "{HEAD}{journals}")?;
        let (status, has_journals, taken) = told_by(rt.alloc(), &["check"], &input, &[], &[])?;
        assert_eq!(rt; status, due, "{journals}");
        assert_eq!(rt; has_journals, due != CheckStatus::Refused, "{journals}");
        assert_eq!(rt; taken.as_slice(), line.as_bytes(), "{journals}");
        assert!(rt; input.len() < 1000);
        let told = judged(rt.alloc(), Vec::from_slice(rt.alloc(), input.as_bytes())?)?;
        assert_eq!(rt; told.as_slice(), line.as_bytes(), "{journals}");
    }
    Ok(())
}
