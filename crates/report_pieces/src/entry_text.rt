//! The text of an entry of a slice.
ghost use Rattle.std.specs.Prelude.{◌≡◌, ◌++◌, OnOk, OnErr};
ghost use Rattle.machine.specs.Maps.{parameters_of};
ghost use Rattle.report_pieces.specs.EntryTexts.{drop_text, entry_line, entry_place, entry_text, lock_text, look_text, mask_text, owner_text, place_text, tag_text, way_text, what_text};

use cache_core::{SliceEntry, What};
use machine::Machine;
use num_text::GrowingText;
use rc_base::NoMemory;
use std::alloc::Global;

// Adds a mask.
fn push_mask(report: &mut GrowingText, machine: &Machine, mask: u32) -> Result<(), NoMemory>
    ensures { OnOk result (report.new ≡ report.old ++ mask_text (parameters_of machine.now) mask) }
{
    report.push(b" mask ".as_slice())?;
    report.push_hexadecimal(u64::from(mask), (machine.ways + 3) / 4)
}

// Adds whose an access is.
fn push_owner(report: &mut GrowingText, gid: u32, rmid: u16) -> Result<(), NoMemory>
    ensures { OnOk result (report.new ≡ report.old ++ owner_text gid rmid) }
{
    report.push(b"access".as_slice())?;
    report.push_number(b" group ".as_slice(), u64::from(gid))?;
    report.push_number(b" rmid ".as_slice(), u64::from(rmid))
}

// Adds whose an access is, and its mask.
fn push_tag(
    report: &mut GrowingText,
    machine: &Machine,
    gid: u32,
    rmid: u16,
    mask: u32,
) -> Result<(), NoMemory>
    ensures { OnOk result (report.new ≡ report.old ++ tag_text (parameters_of machine.now) gid rmid mask) }
{
    push_owner(report, gid, rmid)?;
    push_mask(report, machine, mask)
}

// Adds the way of an access, after what the access was.
fn push_way(report: &mut GrowingText, hit: bool, way: u8) -> Result<(), NoMemory>
    ensures { OnOk result (report.new ≡ report.old ++ way_text hit way) }
{
    if hit {
        return report.push_number(b" hit way ".as_slice(), u64::from(way));
    }
    report.push_number(b" fill way ".as_slice(), u64::from(way))
}

// Adds where an access was.
fn push_access_place(
    report: &mut GrowingText,
    machine: &Machine,
    line: u64,
    hit: bool,
    way: u8,
) -> Result<(), NoMemory>
    ensures { OnOk result (report.new ≡ report.old ++ place_text (parameters_of machine.now) line hit way) }
{
    report.push_number(b" set ".as_slice(), u64::from(machine.set_of(line)))?;
    report.push_number(b" line ".as_slice(), line)?;
    push_way(report, hit, way)
}

// Adds a lock.
fn push_lock(
    report: &mut GrowingText,
    machine: &Machine,
    mask: u32,
    first_line: u64,
) -> Result<(), NoMemory>
    ensures { OnOk result (report.new ≡ report.old ++ lock_text (parameters_of machine.now) mask first_line) }
{
    report.push(b"lock".as_slice())?;
    push_mask(report, machine, mask)?;
    report.push_number(b" first ".as_slice(), first_line)
}

// Adds a look.
fn push_look(report: &mut GrowingText, rmid: u16, lines: u64) -> Result<(), NoMemory>
    ensures { OnOk result (report.new ≡ report.old ++ look_text rmid lines) }
{
    report.push_number(b"look rmid ".as_slice(), u64::from(rmid))?;
    report.push_number(b" lines ".as_slice(), lines)
}

// Adds a drop.
fn push_drop(report: &mut GrowingText, line: u64, way: Option<u8>) -> Result<(), NoMemory>
    ensures { OnOk result (report.new ≡ report.old ++ drop_text line way) }
{
    report.push_number(b"drop line ".as_slice(), line)?;
    match way {
        Some(way) => report.push_number(b" way ".as_slice(), u64::from(way)),
        None => report.push(b" none".as_slice()),
    }
}

// Adds what happened.
fn push_what(report: &mut GrowingText, machine: &Machine, what: &What) -> Result<(), NoMemory>
    ensures { OnOk result (report.new ≡ report.old ++ what_text (parameters_of machine.now) what.now) }
{
    match what {
        What::Access {
            owner,
            rmid,
            mask,
            line,
            hit,
            way,
        } => {
            push_tag(report, machine, owner.0, *rmid, *mask)?;
            push_access_place(report, machine, *line, *hit, *way)
        }
        What::Raise => report.push(b"raise".as_slice()),
        What::Flush => report.push(b"flush".as_slice()),
        What::Lock { mask, first_line } => push_lock(report, machine, *mask, *first_line),
        What::Look { rmid, lines } => push_look(report, *rmid, *lines),
        What::Drop { line, way } => push_drop(report, *line, *way),
    }
}

// Adds the position of an entry, its thread, its op's number and its epoch.
fn push_entry_place(report: &mut GrowingText, p: u64, entry: &SliceEntry) -> Result<(), NoMemory>
    ensures { OnOk result (report.new ≡ report.old ++ entry_place p entry.now) }
{
    report.push_decimal(p)?;
    report.push_number(b" ".as_slice(), u64::from(entry.thread))?;
    report.push_number(b".".as_slice(), u64::from(entry.op))?;
    report.push_number(b" e".as_slice(), entry.epoch)?;
    report.push(b" ".as_slice())
}

/// Adds the text of an entry at a position: its line without the newline.
#[tactic(auto, unfolding(crate::specs::EntryTexts::entry_text))]
pub fn push_entry_text(
    report: &mut GrowingText,
    machine: &Machine,
    p: u64,
    entry: &SliceEntry,
) -> Result<(), NoMemory>
    ensures { OnOk result (report.new ≡ report.old ++ entry_text (parameters_of machine.now) p entry.now) }
{
    push_entry_place(report, p, entry)?;
    push_what(report, machine, &entry.what)
}

/// Adds the line of an entry at a position.
#[tactic(auto, unfolding(crate::specs::EntryTexts::entry_line))]
pub fn push_entry_line(
    report: &mut GrowingText,
    machine: &Machine,
    p: u64,
    entry: &SliceEntry,
) -> Result<(), NoMemory>
    ensures { OnOk result
        (report.new ≡ report.old ++ entry_line (parameters_of machine.now) p entry.now) }
{
    push_entry_text(report, machine, p, entry)?;
    report.push(b"\n".as_slice())
}

/// Adds the line of an entry at a position to bytes that are no report (this project's profile). NoMemory adds nothing here.
pub fn push_entry(
    alloc: Global,
    position: u32,
    entry: &SliceEntry,
    machine: &Machine,
    out: &mut Vec<u8>,
) -> Result<(), NoMemory>
    ensures ok { OnOk result (out.new.items ≡
        out.old.items ++ entry_line (parameters_of machine.now) position entry.now) }
    ensures err { OnErr result (out.new.items ≡ out.old.items) }
{
    let mut line = GrowingText::create(alloc)?;
    push_entry_line(&mut line, machine, u64::from(position), entry)?;
    match out.extend_from_slice(&line.into_bytes()) {
        Ok(()) => Ok(()),
        Err(_) => Err(NoMemory),
    }
}
