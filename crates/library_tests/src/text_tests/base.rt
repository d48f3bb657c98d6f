//! Buffers with their room, some rows of the table of reasons, the default group, and texts.

use rc_base::{Argument, Errno, Gid, LookList, Reply, TextBuf, Why, is_text};
use std::test::Fail;

#[test]
fn buffers_hold_what_was_pushed(rt: HostRuntime) -> Result<(), Fail> {
    let mut text = TextBuf::with_room(rt.alloc(), 8)?;
    text.push(b'L');
    text.push_all(b"3:0=f".as_slice());
    assert_eq!(rt; text.bytes(), b"L3:0=f".as_slice());
    text.clear();
    text.push_all(b"L3:0=ff0".as_slice());
    assert_eq!(rt; text.bytes(), b"L3:0=ff0".as_slice());
    let mut looks = LookList::with_room(rt.alloc(), 2)?;
    looks.push(7);
    looks.push(0);
    assert_eq!(rt; looks.items(), [7, 0].as_slice());
    Ok(())
}

#[test]
fn reasons_have_their_errors_and_texts(rt: HostRuntime) -> Result<(), Fail> {
    let busy = Why::RmidsBusy;
    assert_eq!(rt;
        (busy.number(), busy.errno().name(), busy.errno().code()),
        (8, "EBUSY", 16)
    );
    assert_eq!(rt; busy.wording().before, "RMIDs are in limbo");
    let gaps = Why::Gaps.wording();
    assert_eq!(rt;
        (gaps.before, gaps.argument, gaps.after),
        (
            "mask ",
            Argument::Hexadecimal,
            " has non-consecutive 1-bits"
        )
    );
    let reply = Reply::refused(Why::NoTask, 999);
    assert_eq!(rt;
        reply,
        Reply::Refused {
            errno: Errno::Esrch,
            why: Why::NoTask,
            arg: 999
        }
    );
    assert_eq!(rt; Why::WrongCpu.number(), 42);
    Ok(())
}

#[test]
fn names_and_texts_are_told_apart(rt: HostRuntime) {
    assert!(rt; Gid::DEFAULT.is_default());
    assert!(rt; !Gid(1).is_default());
    assert!(rt; is_text(b"L3".as_slice(), b"L3".as_slice()));
    assert!(rt; !is_text(b"L3 ".as_slice(), b"L3".as_slice()));
    assert!(rt; !is_text(b"".as_slice(), b"L3".as_slice()));
}
