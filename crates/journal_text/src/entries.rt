//! The entry of a slice that a line is.
ghost use Rattle.std.specs.Prelude.{◌≡◌, ◌<◌, MatchOption};
ghost use Rattle.cache_core.specs.declared.entry.SliceEntry.{SliceEntry};
ghost use Rattle.journal_text.specs.Lines.{entry_line};
ghost use Rattle.journal_text.specs.Writable.{IsWritableEntry};
ghost use Rattle.machine.specs.Maps.{parameters_of};
ghost use Rattle.machine.specs.Slices.{slice_count};

use crate::cursor::{first_word, take_three};
use crate::fields::narrow;
use crate::kind::kind_named;
use crate::whats::what_of;
use cache_core::SliceEntry;
use machine::Machine;

/// The entry of this slice, by its number over all domains, whose line this is, without the newline. None where the line is that
/// of no entry whose numbers are in their ranges: a way of the machine, a valid mask, and for an access or a drop a line of the
/// slice (this project's profile).
pub fn entry_of_line(line: &[u8], machine: &Machine, slice: u32) -> Option<SliceEntry>
    requires { slice < slice_count (parameters_of machine.now) }
    ensures { MatchOption result
        ((e : SliceEntry) → IsWritableEntry (parameters_of machine.now) slice e → entry_line e ≡ line.now → ⊥)
        (λ e. IsWritableEntry (parameters_of machine.now) slice e × (entry_line e ≡ line.now)) }
{
    let (word, rest) = first_word(line);
    let kind = kind_named(word)?;
    let (thread, op, epoch, rest) = take_three(rest)?;
    let what = what_of(kind, rest, machine, slice)?;
    let thread = narrow(thread)?;
    let op = narrow(op)?;
    Some(SliceEntry {
        thread,
        op,
        epoch,
        what,
    })
}
