//! How each call for a report ends.

use crate::replays::{Ending, NO_RUN, RACE, USAGE, told_by};
use call_rim::Status;
use std::test::Fail;

const ENDINGS: [Ending; 9] = [
    (&["report"], NO_RUN, &[], &[], Status::Done, 6, "no D11\n"),
    (
        &["report", "--json"],
        NO_RUN,
        &[],
        &[],
        Status::Done,
        6,
        "no D11\n",
    ),
    (
        &["report", "--json", "--json"],
        RACE,
        &[],
        &[],
        Status::Usage,
        2,
        USAGE,
    ),
    (
        &["report", "order"],
        RACE,
        &[],
        &[],
        Status::Usage,
        2,
        USAGE,
    ),
    (
        &["--json", "report"],
        RACE,
        &[],
        &[],
        Status::Usage,
        2,
        USAGE,
    ),
    (
        &["report"],
        "machine ways=0\njournal 1\n",
        &[],
        &[],
        Status::Refused,
        1,
        "line 1: bad machine line\n",
    ),
    (
        &["report", "--quiet"],
        "machine sets=1 ways=4\n",
        &[],
        &[],
        Status::Refused,
        1,
        "line 0: no journal\n",
    ),
    (&["report"], RACE, &[1], &[], Status::ReadFault, 3, ""),
    (&["report"], RACE, &[], &[1], Status::WriteFault, 4, ""),
];

#[test]
fn every_call_for_a_report_has_its_ending(rt: HostRuntime) -> Result<(), Fail> {
    for (texts, input, reads, writes, due, exit, line) in ENDINGS {
        let (status, code, taken) = told_by(rt.alloc(), texts, input, reads, writes)?;
        assert_eq!(rt; status, due, "{line}");
        assert_eq!(rt; code, exit, "{line}");
        assert_eq!(rt; taken.as_slice(), line.as_bytes(), "{line}");
    }
    Ok(())
}
