//! The lines of entries and commands, added to a text.
ghost use Rattle.std.specs.Prelude.{◌≡◌, ◌∷◌, ◌++◌, [], Option, OnOk};
ghost use Rattle.journal_text.specs.Lines.{argument_in, command_line, entry_line, fields, line_of, reason_in, text_of, way_word};
ghost use Rattle.run_law.specs.Entries.{entry_value};

use cache_core::{SliceEntry, What};
use num_text::GrowingText;
use rc_base::{NoMemory, Reply};
use run_law::TreeEntry;

// Adds numbers in decimal, each after one space.
fn push_fields(text: &mut GrowingText, numbers: &[u64]) -> Result<(), NoMemory>
    ensures { OnOk result (text.new ≡ text.old ++ fields numbers.now) }
{
    for n in numbers {
        text.push(b" ")?;
        text.push_decimal(*n)?;
    }
    Ok(())
}

/// Adds a word and its numbers.
pub(crate) fn push_line(
    text: &mut GrowingText,
    word: &[u8],
    numbers: &[u64],
) -> Result<(), NoMemory>
    ensures { OnOk result (text.new ≡ text.old ++ line_of word.now numbers.now) }
{
    text.push(word)?;
    push_fields(text, numbers)
}

// Adds the way that a line was flushed from, or a dash.
fn push_way(text: &mut GrowingText, way: Option<u8>) -> Result<(), NoMemory>
    ensures { OnOk result (text.new ≡ text.old ++ way_word way) }
{
    match way {
        Some(way) => push_fields(text, &[u64::from(way)]),
        None => text.push(b" -"),
    }
}

/// Adds the line of an entry, without the newline.
pub(crate) fn push_entry(text: &mut GrowingText, entry: &SliceEntry) -> Result<(), NoMemory>
    ensures { OnOk result (text.new ≡ text.old ++ entry_line entry.now) }
{
    let thread = u64::from(entry.thread);
    let op = u64::from(entry.op);
    let epoch = entry.epoch;
    match entry.what {
        What::Access {
            hit,
            way,
            owner,
            rmid,
            mask,
            line,
        } => push_line(
            text,
            b"access",
            &[
                thread,
                op,
                epoch,
                u64::from(owner.0),
                u64::from(rmid),
                u64::from(mask),
                line,
                u64::from(hit),
                u64::from(way),
            ],
        ),
        What::Raise => push_line(text, b"raise", &[thread, op, epoch]),
        What::Flush => push_line(text, b"flush", &[thread, op, epoch]),
        What::Lock { mask, first_line } => push_line(
            text,
            b"lock",
            &[thread, op, epoch, u64::from(mask), first_line],
        ),
        What::Look { rmid, lines } => {
            push_line(text, b"look", &[thread, op, epoch, u64::from(rmid), lines])
        }
        What::Drop { line, way } => {
            push_line(text, b"drop", &[thread, op, epoch, line])?;
            push_way(text, way)
        }
    }
}

// The number of a reply's reason, and 0 where there is none.
fn reason_number(reply: Reply) -> u64
    ensures { result ≡ reason_in reply }
{
    match reply {
        Reply::Ok => 0,
        Reply::Refused { why, .. } => u64::from(why.number()),
    }
}

// The argument of a reply's reason, and 0 where there is none.
fn argument(reply: Reply) -> u64
    ensures { result ≡ argument_in reply }
{
    match reply {
        Reply::Ok => 0,
        Reply::Refused { arg, .. } => arg,
    }
}

/// Adds the line of a command, with its newline.
pub(crate) fn push_command(text: &mut GrowingText, entry: &TreeEntry) -> Result<(), NoMemory>
    ensures { OnOk result (text.new ≡ text.old ++ text_of (command_line (entry_value entry.now) ∷ [])) }
{
    let looks = entry.looks.items();
    push_line(
        text,
        b"tree",
        &[
            u64::from(entry.thread),
            u64::from(entry.op),
            reason_number(entry.reply),
            argument(entry.reply),
            looks.len() as u64,
        ],
    )?;
    push_fields(text, looks)?;
    text.push(b"\n")
}
