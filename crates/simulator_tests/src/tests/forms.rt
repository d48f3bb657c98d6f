//! Words that are a form, and others.

use crate::tests::{told_by, words};
use report_pieces::Flags;
use resctrl_top::Status;
use std::test::Fail;
use top_parts::{Command, Form, USAGE, form_of};

const NO_FORMS: [&[&str]; 21] = [
    &[],
    &["stop"],
    &["--help"],
    &["--quiet", "step"],
    &["step", "step"],
    &["step", "7"],
    &["step", "--json", "--json"],
    &["step", "--json=x"],
    &["step", "--jso"],
    &["step", "--"],
    &["run", "--json", "--json"],
    &["run", "7"],
    &["--json", "run"],
    &["gen"],
    &["gen", "0"],
    &["gen", "200001"],
    &["gen", "+7"],
    &["gen", "7", "7"],
    &["gen", "7", "gen"],
    &["gen", "--quiet", "7", "--quiet"],
    &["7", "gen"],
];

#[test]
fn other_words_are_no_form(rt: HostRuntime) -> Result<(), Fail> {
    for texts in NO_FORMS {
        let words = words(rt.alloc(), texts)?;
        assert_eq!(rt; form_of(&words), None);
    }
    Ok(())
}

const SCRIPT: &[u8] =
    b"machine sets=1 ways=4\ntasks 1\nphase\nthread\naccess 1 0 0\naccess 1 0 64\naccess 1 0 128\naccess 1 0 0\n";

#[test]
fn other_words_get_the_usage_line(rt: HostRuntime) -> Result<(), Fail> {
    for texts in NO_FORMS {
        let (status, taken) = told_by(rt.alloc(), texts, SCRIPT)?;
        assert_eq!(rt; status, Status::Usage);
        assert_eq!(rt; taken.as_slice(), USAGE.as_bytes());
    }
    Ok(())
}

const NONE: Flags = Flags {
    journal: false,
    json: false,
    windows: false,
    quiet: false,
};

const QUIET: Flags = Flags {
    quiet: true,
    ..NONE
};

const ALL: Flags = Flags {
    journal: true,
    json: true,
    windows: true,
    quiet: true,
};

// Words, and the command and the flags that they ask for.
const FORMS: [(&[&str], Command, Flags); 6] = [
    (&["step"], Command::Step, NONE),
    (&["run", "--quiet"], Command::Run, QUIET),
    (
        &["step", "--windows", "--quiet", "--json", "--journal"],
        Command::Step,
        ALL,
    ),
    (&["gen", "200000"], Command::Gen(200_000), NONE),
    (&["gen", "7", "--quiet"], Command::Gen(7), QUIET),
    (&["gen", "--quiet", "007"], Command::Gen(7), QUIET),
];

#[test]
fn flags_come_in_any_order(rt: HostRuntime) -> Result<(), Fail> {
    for (texts, command, flags) in FORMS {
        let words = words(rt.alloc(), texts)?;
        assert_eq!(rt; form_of(&words), Some(Form { command, flags }));
    }
    Ok(())
}
