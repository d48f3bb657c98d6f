//! Reading a schemata text of two sides from left to right.
ghost use Rattle.std.specs.Prelude.{◌≡◌, ◌+◌, ◌≤◌, ◌++◌, drop, length, map};
ghost use Rattle.pair_law.specs.Reading.{is_same_side, on_side, reading, side_mask};
ghost use Rattle.pair_law.specs.commands.Schemata.{schemata_read};
ghost use Rattle.pair_text.specs.Values.{AreMachines};
ghost use Rattle.pair_tree.specs.Reading.{AreRead, Continues};
ghost use Rattle.schemata_text.specs.Items.{items_of_rest};
ghost use Rattle.schemata_text.specs.Reading.{Gives};

use crate::machines::Machines;
use crate::sides::side_of_line;
use arrayvec::ArrayVec;
use num_text::{cut, trim};
use pair_text::{Side, SideMask};
use schemata_text::{Assignment, Assignments, TextFault, entries};

/// How many masks a text names at most: one for each of eight domains on each side.
pub(crate) const MOST_MASKS: usize = 16;

/// The masks that a text names, in its order.
pub(crate) type SideMasks = ArrayVec<SideMask, MOST_MASKS>;

// Whether a mask is of a side.
fn is_of(side: Side, a: &SideMask) -> bool
    ensures { result ≡ is_same_side side a.now.side }
{
    match (side, a.side) {
        (Side::First, Side::First) | (Side::Second, Side::Second) => true,
        _ => false,
    }
}

// The masks of one side among these.
fn on_side(side: Side, all: &[SideMask]) -> Assignments
    requires { length (on_side side all.now) ≤ 8 }
    ensures { result.items ≡ on_side side all.now }
{
    let mut own = Assignments::new();
    for a in all {
        if is_of(side, a) {
            own.push(Assignment {
                domain: a.domain,
                mask: a.mask,
            });
        }
    }
    own
}

// Adds those of these masks of one side that stand after the first few.
fn push_after(side: Side, few: usize, own: &[Assignment], all: &mut SideMasks)
    requires few { few ≤ length own.now }
    requires room { length all.old.items + length (drop few own.now) ≤ MOST_MASKS }
    ensures { all.new.items ≡ all.old.items ++ map (side_mask side) (drop few own.now) }
{
    push_masks(side, &own[few..], all);
}

// Adds masks of one side.
fn push_masks(side: Side, own: &[Assignment], all: &mut SideMasks)
    requires { length all.old.items + length own.now ≤ MOST_MASKS }
    ensures { all.new.items ≡ all.old.items ++ map (side_mask side) own.now }
{
    for a in own {
        all.push(SideMask {
            side,
            domain: a.domain,
            mask: a.mask,
        });
    }
}

// Adds what the entries of a line of this side say. `rest` is what stands after the line's colon.
fn read_entries(m: &Machines, side: Side, rest: &[u8], all: &mut SideMasks) -> Result<(), TextFault>
    requires machines { AreMachines m.now }
    requires read { AreRead m.now all.old.items }
    ensures read { AreRead m.now all.new.items }
    ensures said { Continues m.now side all.old.items (items_of_rest rest.now) result all.new.items }
{
    let mut own = on_side(side, all.as_slice());
    let before = own.len();
    match entries(rest, &m.geometry(side), m.domains(side), &mut own) {
        Ok(()) => {
            push_after(side, before, own.as_slice(), all);
            Ok(())
        }
        Err(fault) => Err(fault),
    }
}

// The masks of a text, whose blanks at both ends are dropped.
fn read_lines(m: &Machines, text: &[u8]) -> Result<SideMasks, TextFault>
    requires machines { AreMachines m.now }
    ensures { Gives (λ v. v.items) result (reading m.now text.now) }
{
    let mut all = SideMasks::new();
    let mut left = text;
    'lines: loop {
        let (front, more) = cut(left, b'\n');
        let (side, rest) = match side_of_line(m, front) {
            Ok(found) => found,
            Err(fault) => return Err(fault),
        };
        match read_entries(m, side, rest, &mut all) {
            Ok(()) => {}
            Err(fault) => return Err(fault),
        }
        match more {
            None => return Ok(all),
            Some(rest) => left = rest,
        }
    }
}

/// The masks that a written text names, in its order, or the fault of its first bad item from left to right. A text is lines as in
/// any schemata text, and each line names its side (kernel documentation, the format of `schemata`).
#[tactic(auto, unfolding(pair_law::specs::commands::Schemata::schemata_read))]
pub(crate) fn read_masks(m: &Machines, text: &[u8]) -> Result<SideMasks, TextFault>
    requires machines { AreMachines m.now }
    ensures { Gives (λ v. v.items) result (schemata_read m.now text.now) }
{
    read_lines(m, trim(text))
}
