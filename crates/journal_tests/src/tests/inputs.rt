//! Inputs with their division, command lines, and the lines that tell what was found.

use crate::tests::words;
use check_parts::{BadInput, Division, Form, Play, bad_line_of, divide, form_of, verdict_line};
use journal_check::{Clause, Verdict};
use std::test::Fail;

// Inputs, and what stands before their journals.
const DIVIDED: [(&[u8], Option<Division>); 9] = [
    (b"", None),
    (b"machine\n", None),
    (b"journal 1", Some(Division { lines: 0, bytes: 0 })),
    (b"journal 1\nend\n", Some(Division { lines: 0, bytes: 0 })),
    (
        b"machine\n\njournal 1\njournal 1\n",
        Some(Division { lines: 2, bytes: 9 }),
    ),
    (b"machine\njournal 1", Some(Division { lines: 1, bytes: 8 })),
    (b"machine journal 1\n journal 1\njournal 10\n", None),
    (b"journal 1\r\njournal 1 \n", None),
    (
        b"a\nb\r\njournal 1\r\njournal 1\n",
        Some(Division {
            lines: 3,
            bytes: 16,
        }),
    ),
];

#[test]
fn inputs_are_divided_at_the_first_line_of_journals(rt: HostRuntime) -> Result<(), Fail> {
    for (input, division) in DIVIDED {
        assert!(rt; input.len() < 1000);
        assert_eq!(rt; divide(input), division);
    }
    Ok(())
}

// Words, and what they ask for.
const FORMS: [(&[&str], Option<Form>); 9] = [
    (&["export", "step"], Some(Form::Export(Play::Step))),
    (&["export", "run"], Some(Form::Export(Play::Run))),
    (&["check"], Some(Form::Check)),
    (&[], None),
    (&["export"], None),
    (&["step"], None),
    (&["check", "step"], None),
    (&["export", "gen"], None),
    (&["export", "step", "--quiet"], None),
];

#[test]
fn three_command_lines_are_forms(rt: HostRuntime) -> Result<(), Fail> {
    for (texts, form) in FORMS {
        let words = words(rt.alloc(), texts)?;
        assert_eq!(rt; form_of(&words), form);
    }
    Ok(())
}

const BAD_LINES: [(BadInput, &[u8]); 3] = [
    (BadInput::BadJournal { line: 14 }, b"line 14: bad journal\n"),
    (BadInput::NoJournal, b"line 0: no journal\n"),
    (BadInput::TooLarge, b"line 0: script too large\n"),
];

#[test]
fn lines_tell_what_is_wrong(rt: HostRuntime) -> Result<(), Fail> {
    for (bad, line) in BAD_LINES {
        let told = bad_line_of(rt.alloc(), bad)?;
        assert_eq!(rt; told.as_slice(), line);
    }
    Ok(())
}

const VERDICTS: [(Verdict, &[u8]); 2] = [
    (Verdict::Yes, b"yes\n"),
    (
        Verdict::No {
            clause: Clause::MarksInOrder,
        },
        b"no D15.3\n",
    ),
];

#[test]
fn lines_tell_the_verdict(rt: HostRuntime) -> Result<(), Fail> {
    for (verdict, line) in VERDICTS {
        let told = verdict_line(rt.alloc(), verdict)?;
        assert_eq!(rt; told.as_slice(), line);
    }
    Ok(())
}
