//! The journals of the worked run, and texts that are none of it.

use crate::tests::worked_run::{FILL, HIT, JOURNALS, RAISE, SCRIPT};
use journal_text::{ReadError, read};
use rc_base::Reply;
use script_text::read_script;
use std::alloc::Global;
use std::process::Abort;
use std::test::Fail;

#[test]
fn a_text_gives_its_journals(rt: HostRuntime) -> Result<(), Fail> {
    let script = read_script(rt.alloc(), SCRIPT)?;
    let (tree, slices) = read(rt.alloc(), JOURNALS, &script)
        .expect(&rt, "journals")
        .into_parts();
    assert_eq!(rt; tree.len(), 1);
    assert_eq!(rt;
        (tree[0].thread, tree[0].op, tree[0].reply),
        (0, 1, Reply::Ok)
    );
    assert_eq!(rt; tree[0].looks.items().len(), 0);
    assert_eq!(rt; slices.len(), 1);
    assert_eq!(rt; slices[0].as_slice(), [FILL, RAISE, HIT].as_slice());
    Ok(())
}

// Texts that give no journals of the worked run's script, and their first bad lines.
const BAD: [(&[u8], u32); 6] = [
    // No line `end`, one without its newline, a line after it, and no line at all.
    (
        b"journal 1
tree 0 1 0 0 0
slice 0 0 3
access 0 0 0 0 0 15 0 0 0
raise 0 1 1
access 0 2 1 0 0 12 0 1 0
",
        7,
    ),
    (b"journal 1\nslice 0 0 0\nend", 3),
    (b"journal 1\nslice 0 0 0\nend\nend\n", 4),
    (b"", 1),
    // More entries than were announced, and fewer.
    (
        b"journal 1\nslice 0 0 1\nraise 0 0 0\nraise 0 0 0\nend\n",
        4,
    ),
    (b"journal 1\nslice 0 0 2\nraise 0 0 0\nend\n", 4),
];

// Why a short text gives no journals of the script; None where it gives some.
fn fault_of(rt: &impl Abort, alloc: Global, text: &[u8]) -> Result<Option<ReadError>, Fail> {
    assert!(rt; text.len() < 1000);
    let script = read_script(alloc, SCRIPT)?;
    match read(alloc, text, &script) {
        Ok(_) => Ok(None),
        Err(error) => Ok(Some(error)),
    }
}

#[test]
fn the_first_bad_line_is_told(rt: HostRuntime) -> Result<(), Fail> {
    assert_eq!(rt; fault_of(&rt, rt.alloc(), JOURNALS)?, None);
    for (text, line) in BAD {
        let fault = fault_of(&rt, rt.alloc(), text)?;
        assert_eq!(rt; fault, Some(ReadError::Bad { line }));
    }
    Ok(())
}
