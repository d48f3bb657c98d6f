//! Lines of the worked run, both ways.
ghost use Rattle.std.specs.Prelude.{◌≡◌};
ghost use Rattle.machine.specs.Maps.{parameters_of};
ghost use Rattle.machine.specs.Slices.{slice_count};

use crate::tests::worked_run::{FILL, HIT, JOURNALS, RAISE, journals_of};
use cache_core::SliceEntry;
use journal_text::{command_of_line, count_of_line, entry_of_line, print};
use machine::{Machine, Parameters};
use rc_base::{Reply, Why};
use std::process::Abort;
use std::test::Fail;

// One slice of one set of four ways.
const PARAMETERS: Parameters = Parameters {
    domains: 1,
    sets: 1,
    ways: 4,
    classes: 2,
    rmids: 2,
    cpus: 1,
    min: 1,
    shareable: 0,
    threshold: 0,
    sparse: false,
    slices: 1,
};

// The machine of these parameters.
fn machine(rt: &impl Abort) -> Machine
    ensures { slice_count (parameters_of result) ≡ 1 }
{
    Machine::checked(&PARAMETERS).expect(rt, "the parameters are in range")
}

#[test]
fn journals_are_printed(rt: HostRuntime) -> Result<(), Fail> {
    let journals = journals_of(rt.alloc(), None, &[FILL, RAISE, HIT])?;
    let text = print(rt.alloc(), &journals, &machine(&rt))?;
    assert_eq!(rt; text.as_slice(), JOURNALS);
    Ok(())
}

// Lines of the slice, and the entries that they are.
const ENTRIES: [(&[u8], Option<SliceEntry>); 8] = [
    (b"access 0 0 0 0 0 15 0 0 0", Some(FILL)),
    (b"access 0 2 1 0 0 12 0 1 0", Some(HIT)),
    (b"access 0 2 1 0 0 12 0 2 0", None),
    (b"access 0 2 1 0 0 12 0 1 4", None),
    (b"access 0 2 1 0 0 5 0 1 0", None),
    (b"access 0 2 1 0 0 012 0 1 0", None),
    (b"access  0 2 1 0 0 12 0 1 0", None),
    (b"tree 0 1 0 0 0", None),
];

#[test]
fn lines_are_read(rt: HostRuntime) -> Result<(), Fail> {
    let machine = machine(&rt);
    for (line, entry) in ENTRIES {
        assert_eq!(rt; entry_of_line(line, &machine, 0), entry);
    }
    Ok(())
}

// Lines before the entries of the slice, the most entries that there may be, and how many the line says.
const COUNTS: [(&[u8], u64, Option<u64>); 3] = [
    (b"slice 0 0 3", 3, Some(3)),
    (b"slice 0 0 3", 2, None),
    (b"slice 0 1 3", 3, None),
];

#[test]
fn counts_are_read(rt: HostRuntime) -> Result<(), Fail> {
    let machine = machine(&rt);
    for (line, most, count) in COUNTS {
        assert_eq!(rt; count_of_line(line, &machine, 0, most), count);
    }
    Ok(())
}

#[test]
fn commands_are_read(rt: HostRuntime) -> Result<(), Fail> {
    let taken = command_of_line(rt.alloc(), b"tree 0 1 42 0 2 7 18446744073709551615", 2)?.expect(
        &rt,
        "the line is that of a command",
    );
    assert_eq!(rt; (taken.thread, taken.op), (0, 1));
    assert_eq!(rt; taken.reply, Reply::refused(Why::WrongCpu, 0));
    assert_eq!(rt; taken.looks.items(), [7, u64::MAX].as_slice());
    Ok(())
}

const NO_COMMANDS: [&[u8]; 5] = [
    b"tree 0 1 0 1 0",
    b"tree 0 1 43 0 0",
    b"tree 0 1 0 0 2 7",
    b"tree 0 1 0 0 1 7 8",
    b"tree 0 1 0 0 18446744073709551615 7",
];

#[test]
fn other_lines_are_no_commands(rt: HostRuntime) -> Result<(), Fail> {
    for line in NO_COMMANDS {
        assert!(rt; command_of_line(rt.alloc(), line, u64::MAX)?.is_none());
    }
    Ok(())
}
