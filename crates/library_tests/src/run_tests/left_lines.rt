//! The accesses among entries, and the lines that they leave.
ghost use Rattle.std.specs.Prelude.{◌≡◌, length, IfOk};
ghost use Rattle.machine.specs.Slices.{slice_count};
ghost use Rattle.run_counts.specs.DomainLines.{DomainLinesValue};
ghost use Rattle.run_law.specs.Journals.{At};

use cache_core::{SliceEntry, What};
use rc_base::Gid;
use run_counts::{Counts, DomainLines, RunCounts};
use run_law::Journals;
use script_ops::Script;
use script_text::read_script;
use std::alloc::Global;
use std::process::Abort;
use std::test::Fail;

// One set of four ways, and four RMIDs.
const MACHINE: &[u8] = b"machine sets=1 ways=4 rmids=4\n";

fn entry(what: What) -> SliceEntry {
    SliceEntry {
        thread: 0,
        op: 0,
        epoch: 0,
        what,
    }
}

// An access to a line, which is in this way then.
fn access(rmid: u16, line: u64, hit: bool, way: u8) -> SliceEntry {
    entry(What::Access {
        owner: Gid(0),
        rmid,
        mask: 15,
        line,
        hit,
        way,
    })
}

// A line that fills a way for an RMID.
fn fill(rmid: u16, line: u64, way: u8) -> SliceEntry {
    access(rmid, line, false, way)
}

// How many lines are left, how many of each RMID, and the accesses.
#[derive(Clone, Copy)]
struct Left {
    valid: u64,
    lines: [u64; 4],
    all: Counts,
}

// What is counted from these entries of the only slice.
fn counted(alloc: Global, script: &Script, entries: &[SliceEntry]) -> Result<RunCounts, Fail>
    requires { slice_count script.now.machine ≡ 1 }
    ensures domains { IfOk result (λ c. length c.domains ≡ script.now.machine.domains) }
    ensures rmids { IfOk result (λ c. (d : DomainLinesValue) → At c.domains 0 d → length d.counts ≡ script.now.machine.rmids) }
{
    let slice = Vec::from_slice(alloc, entries)?;
    let journals = Journals::of(Vec::new(alloc), vec![in alloc; slice]?);
    Ok(RunCounts::of(alloc, script, &journals)?)
}

// What the first domain, which has four RMIDs, is counted to have.
fn left_in(domain: &DomainLines, all: Counts) -> Left
    requires { length domain.now.counts ≡ 4 }
{
    Left {
        valid: domain.valid(),
        lines: [
            domain.lines(0),
            domain.lines(1),
            domain.lines(2),
            domain.lines(3),
        ],
        all,
    }
}

// What these entries leave.
fn left_by(rt: &impl Abort, alloc: Global, entries: &[SliceEntry]) -> Result<Left, Fail> {
    let script = read_script(alloc, MACHINE)?;
    assert!(rt; script.machine().slice_count() == 1);
    assert!(rt; script.machine().domains == 1);
    assert!(rt; script.machine().rmids == 4);
    let counts = counted(alloc, &script, entries)?;
    Ok(left_in(counts.domain(0), counts.tally().all()))
}

// Asserts that these entries leave so many lines, with so many accesses.
fn leave(rt: &impl Abort, alloc: Global, entries: &[SliceEntry], want: Left) -> Result<(), Fail> {
    let left = left_by(rt, alloc, entries)?;
    assert_eq!(rt; (left.valid, left.lines), (want.valid, want.lines));
    assert_eq!(rt; left.all, want.all);
    Ok(())
}

// So many accesses, of which so many missed.
fn accesses(accesses: u64, hits: u64, misses: u64) -> Counts {
    Counts {
        accesses,
        hits,
        misses,
    }
}

#[test]
fn only_the_last_fill_of_a_place_since_a_flush_counts(rt: HostRuntime) -> Result<(), Fail> {
    let entries = [
        fill(1, 10, 3),
        entry(What::Flush),
        fill(1, 11, 0),
        fill(2, 12, 0),
        fill(2, 13, 1),
    ];
    // The access before the flush counts too.
    let left = Left {
        valid: 2,
        lines: [0, 0, 2, 0],
        all: accesses(4, 0, 4),
    };
    leave(&rt, rt.alloc(), &entries, left)
}

#[test]
fn a_dropped_line_counts_no_more(rt: HostRuntime) -> Result<(), Fail> {
    let gone = What::Drop {
        line: 11,
        way: Some(1),
    };
    let nowhere = What::Drop {
        line: 14,
        way: None,
    };
    let entries = [
        fill(1, 10, 0),
        fill(1, 11, 1),
        fill(2, 12, 2),
        entry(gone),
        entry(nowhere),
        fill(3, 13, 0),
    ];
    let left = Left {
        valid: 2,
        lines: [0, 0, 1, 1],
        all: accesses(4, 0, 4),
    };
    leave(&rt, rt.alloc(), &entries, left)
}

#[test]
fn a_region_keeps_the_places_that_no_later_line_took(rt: HostRuntime) -> Result<(), Fail> {
    let region = What::Lock {
        mask: 7,
        first_line: 100,
    };
    let entries = [fill(3, 10, 3), entry(region), fill(1, 11, 0)];
    let left = Left {
        valid: 3,
        lines: [2, 1, 0, 0],
        all: accesses(2, 0, 2),
    };
    leave(&rt, rt.alloc(), &entries, left)
}

#[test]
fn accesses_before_those_that_fill_a_slice_are_tallied(rt: HostRuntime) -> Result<(), Fail> {
    let entries = [
        fill(3, 10, 0),
        access(3, 10, true, 0),
        fill(1, 11, 0),
        fill(1, 12, 1),
        fill(2, 13, 2),
        fill(2, 14, 3),
    ];
    let left = Left {
        valid: 4,
        lines: [0, 2, 2, 0],
        all: accesses(6, 1, 5),
    };
    leave(&rt, rt.alloc(), &entries, left)
}
