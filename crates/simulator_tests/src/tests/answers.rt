//! What each kind of command answers.

use crate::tests::told;
use resctrl_top::Status;
use std::alloc::Global;
use std::process::Abort;
use std::test::Fail;

// A line of the only thread, and what follows the words of its command in the report.
const ROWS: [(&str, &str); 36] = [
    ("read /mode", "ok\n|shareable\n"),
    ("read /a/mode", "ENOENT no such file or directory\n"),
    (
        "write /a/mode exclusive",
        "ENOENT no such file or directory\n",
    ),
    ("write /mode", "EINVAL unknown or unsupported mode\n"),
    (
        "write /mode pseudo-locked",
        "EINVAL unknown or unsupported mode\n",
    ),
    ("write /mode shared", "EINVAL unknown or unsupported mode\n"),
    (
        "write /mode pseudo-locksetup\\n",
        "EINVAL unknown or unsupported mode\n",
    ),
    ("write /size pseudo-locksetup", "EACCES file is read-only\n"),
    ("write /schemata pseudo-locksetup", "EINVAL missing ':'\n"),
    (
        "write /info/L3/cbm_mask pseudo-locksetup",
        "EACCES file is read-only\n",
    ),
    (
        "write /info/last_cmd_status ok",
        "EACCES file is read-only\n",
    ),
    ("read /info/last_cmd_status", "ok\n|ok\n"),
    ("read /info/mode", "ENOENT no such file or directory\n"),
    ("read /info/L3", "ENOENT no such file or directory\n"),
    ("list /a/mon_groups", "ENOENT no such file or directory\n"),
    ("read /taskz", "ENOENT no such file or directory\n"),
    ("read /mode\nphase", "ok\n|shareable\n"),
    ("read /tasks", "ok\n|1\n"),
    ("read /a/tasks", "ENOENT no such file or directory\n"),
    ("write /tasks 2", "ESRCH no task 2\n"),
    ("write /a/tasks 2", "ENOENT no such file or directory\n"),
    ("read /cpus", "ok\n|1\n"),
    ("write /cpus 2", "EINVAL no CPU 1\n"),
    ("read /cpus_list", "ok\n|0\n"),
    ("write /cpus_list 0", "ok\n"),
    ("read /info/cpus", "ENOENT no such file or directory\n"),
    ("tick", "ok\n"),
    (
        "write /mode \t pseudo-locksetup\t ",
        "EINVAL default group cannot be pseudo-locked\n",
    ),
    (
        "write /a/mode pseudo-locksetup",
        "ENOENT no such file or directory\n",
    ),
    ("touch / 0 1 0", "ENOENT no such file or directory\n"),
    ("touch /a 0 1 0", "ENOENT no such file or directory\n"),
    ("read /schemata\nthread", "ok\n|L3:0=f\n"),
    ("list /mon_groups/m", "ENOENT no such file or directory\n"),
    (
        "list /a/mon_groups/m/x/y",
        "ENOENT no such file or directory\n",
    ),
    (
        "mkdir /mon_groups/m/x",
        "ENOENT no such file or directory\n",
    ),
    ("mkdir /mon_groups/m", "ok\n"),
];

// The status of a script whose thread has this one line, and what it writes.
fn told_of(alloc: Global, line: &str) -> Result<(Status, Vec<u8>), Fail> {
    let script = format!(in alloc; "machine sets=1 ways=4\ntasks 1\nphase\nthread\n{line}\n")?;
    told(alloc, script.as_bytes())
}

// The report of this line begins with its command and this answer.
fn is_answered(rt: &impl Abort, alloc: Global, line: &str, answer: &str) -> Result<(), Fail> {
    let (status, taken) = told_of(alloc, line)?;
    assert_eq!(rt; status, Status::Done, "{line}");
    let command = line.split('\n').next().unwrap_or("");
    let want = format!(in alloc; "0 0.0 {command}: {answer}")?;
    assert!(rt; taken.starts_with(want.as_bytes()), "{line}");
    Ok(())
}

#[test]
fn commands_are_answered(rt: HostRuntime) -> Result<(), Fail> {
    for (line, answer) in ROWS {
        is_answered(&rt, rt.alloc(), line, answer)?;
    }
    Ok(())
}
