//! The limits of scripts.

use crate::tests::bad_scripts::is_refused;
use crate::tests::told;
use resctrl_top::Status;
use std::alloc::Global;
use std::process::Abort;
use std::test::Fail;

const THREAD: &[u8] = b"machine\ntasks 1\nphase\nthread\n";

const TOO_LARGE: &str = "line 5: script too large";

// A text is a head, so many pieces and an end. One piece more passes a limit, and this line says which.
#[derive(Clone, Copy)]
struct Limit<'a> {
    head: &'a [u8],
    piece: &'a [u8],
    times: u32,
    end: &'a [u8],
    passed: &'a str,
}

// A text, so many pieces after it, and an end.
fn repeated(
    alloc: Global,
    head: &[u8],
    piece: &[u8],
    times: u32,
    end: &[u8],
) -> Result<Vec<u8>, Fail> {
    let mut text = Vec::from_slice(alloc, head)?;
    for _ in 0..times {
        text.extend_from_slice(piece)?;
    }
    text.extend_from_slice(end)?;
    Ok(text)
}

// The text that keeps a limit is played, and the one that passes it is refused.
fn is_kept(rt: &impl Abort, alloc: Global, limit: &Limit) -> Result<(), Fail> {
    let script = repeated(alloc, limit.head, limit.piece, limit.times, limit.end)?;
    let (status, _) = told(alloc, &script)?;
    assert_eq!(rt; status, Status::Done, "{}", limit.passed);
    let more = limit.times.saturating_add(1);
    let script = repeated(alloc, limit.head, limit.piece, more, limit.end)?;
    is_refused(rt, alloc, &script, limit.passed)
}

#[test]
fn names_have_their_limit(rt: HostRuntime) -> Result<(), Fail> {
    let head = repeated(rt.alloc(), THREAD, b"mkdir /", 1, b"")?;
    let limit = Limit {
        head: &head,
        piece: b"a",
        times: 255,
        end: b"",
        passed: "line 5: bad path",
    };
    is_kept(&rt, rt.alloc(), &limit)
}

// A beginning of a path, of seven components of 255 bytes and the slash of one more.
fn seven_components(alloc: Global) -> Result<Vec<u8>, Fail> {
    let mut component = [b'a'; 256];
    component[0] = b'/';
    repeated(alloc, b"", component.as_slice(), 7, b"/")
}

#[test]
fn paths_have_their_limit(rt: HostRuntime) -> Result<(), Fail> {
    let path = seven_components(rt.alloc())?;
    let head = repeated(rt.alloc(), THREAD, b"mkdir ", 1, &path)?;
    let limit = Limit {
        head: &head,
        piece: b"b",
        times: 255,
        end: b"",
        passed: TOO_LARGE,
    };
    is_kept(&rt, rt.alloc(), &limit)
}

// A text that is no path is refused as such, unless it passes the limit of paths.
#[test]
fn bad_paths_have_the_same_limit(rt: HostRuntime) -> Result<(), Fail> {
    let path = seven_components(rt.alloc())?;
    let head = repeated(rt.alloc(), THREAD, b"read x", 1, &path)?;
    let script = repeated(rt.alloc(), &head, b"b", 254, b"")?;
    is_refused(&rt, rt.alloc(), &script, "line 5: bad path")?;
    let script = repeated(rt.alloc(), &head, b"b", 255, b"")?;
    is_refused(&rt, rt.alloc(), &script, TOO_LARGE)
}

#[test]
fn texts_have_their_limit(rt: HostRuntime) -> Result<(), Fail> {
    let head = repeated(rt.alloc(), THREAD, b"write /schemata \\n", 1, b"")?;
    let limit = Limit {
        head: &head,
        piece: b"x",
        times: 4095,
        end: b"\n",
        passed: TOO_LARGE,
    };
    is_kept(&rt, rt.alloc(), &limit)?;
    let script = repeated(rt.alloc(), &head, b"x", 5000, b"\\")?;
    is_refused(&rt, rt.alloc(), &script, "line 5: bad escape")
}

// Of phases, of threads, of the numbers of an order, and of accesses.
const COUNTS: [Limit; 4] = [
    Limit {
        head: b"machine\n",
        piece: b"phase\n",
        times: 64,
        end: b"",
        passed: "line 66: script too large",
    },
    Limit {
        head: b"machine\nphase\n",
        piece: b"thread\n",
        times: 16,
        end: b"phase\nthread\n",
        passed: "line 19: script too large",
    },
    Limit {
        head: b"machine\nphase\norder",
        piece: b" 0",
        times: 4_000_000,
        end: b"",
        passed: "line 3: script too large",
    },
    Limit {
        head: b"machine\ntasks 1\nphase\nthread\nsweep 1 0 0 3999999 0\n",
        piece: b"access 1 0 0\n",
        times: 1,
        end: b"",
        passed: "line 7: script too large",
    },
];

#[test]
fn counts_have_their_limits(rt: HostRuntime) -> Result<(), Fail> {
    for limit in &COUNTS {
        is_kept(&rt, rt.alloc(), limit)?;
    }
    Ok(())
}

#[test]
fn scripts_have_their_limits(rt: HostRuntime) -> Result<(), Fail> {
    let most = vec![in rt.alloc(); b'#'; 67_108_864]?;
    is_refused(&rt, rt.alloc(), &most, "line 2: no machine line")?;
    let long = vec![in rt.alloc(); b'#'; 67_108_865]?;
    is_refused(&rt, rt.alloc(), &long, "line 0: script too large")
}
