//! What happened, read from the rest of an entry's line.
ghost use Rattle.std.specs.Prelude.{◌≡◌, ℕ, ◌<◌, [], Option, MatchOption};
ghost use Rattle.cache_core.specs.declared.entry.What.{What};
ghost use Rattle.journal_text.specs.Kinds.{IsRest};
ghost use Rattle.journal_text.specs.Lines.{way_word};
ghost use Rattle.journal_text.specs.Writable.{IsWay};
ghost use Rattle.journal_text.specs.declared.kind.EntryKind.TheVariants as kinds;
ghost use Rattle.machine.specs.Maps.{parameters_of};
ghost use Rattle.machine.specs.Slices.{slice_count};

use crate::cursor::{only_number, only_three, only_two, take_number, take_three};
use crate::fields::{hit_of, line_in, line_of, mask_of, narrow, rmid_of, way_of};
use crate::kind::EntryKind;
use cache_core::What;
use machine::Machine;
use rc_base::{Gid, is_text};

// An access in this slice.
fn access_of(rest: &[u8], machine: &Machine, slice: u32) -> Option<What>
    requires { slice < slice_count (parameters_of machine.now) }
    ensures { MatchOption result
        ((what : What) → IsRest (parameters_of machine.now) slice kinds.Access rest.now what → ⊥)
        (IsRest (parameters_of machine.now) slice kinds.Access rest.now) }
{
    let (gid, id, bits, rest) = take_three(rest)?;
    let (number, outcome, place) = only_three(rest)?;
    let owner = narrow(gid)?;
    let rmid = rmid_of(id)?;
    let mask = mask_of(bits, machine)?;
    let line = line_in(number, machine, slice)?;
    let hit = hit_of(outcome)?;
    let way = way_of(place, machine)?;
    Some(What::Access {
        hit,
        way,
        owner: Gid(owner),
        rmid,
        mask,
        line,
    })
}

// A lock.
fn lock_of(rest: &[u8], machine: &Machine, slice: u32) -> Option<What>
    ensures { MatchOption result
        ((what : What) → IsRest (parameters_of machine.now) slice kinds.Lock rest.now what → ⊥)
        (IsRest (parameters_of machine.now) slice kinds.Lock rest.now) }
{
    let (bits, number) = only_two(rest)?;
    let mask = mask_of(bits, machine)?;
    let first_line = line_of(number)?;
    Some(What::Lock { mask, first_line })
}

// A look.
fn look_of(rest: &[u8], machine: &Machine, slice: u32) -> Option<What>
    ensures { MatchOption result
        ((what : What) → IsRest (parameters_of machine.now) slice kinds.Look rest.now what → ⊥)
        (IsRest (parameters_of machine.now) slice kinds.Look rest.now) }
{
    let (id, lines) = only_two(rest)?;
    let rmid = rmid_of(id)?;
    Some(What::Look { rmid, lines })
}

// The way that a line was flushed from, or a dash.
fn dropped_from(rest: &[u8], machine: &Machine) -> Option<Option<u8>>
    ensures { MatchOption result
        ((way : Option ℕ) → IsWay (parameters_of machine.now) way → way_word way ≡ rest.now → ⊥)
        (λ way. IsWay (parameters_of machine.now) way × (way_word way ≡ rest.now)) }
{
    if is_text(rest, b" -") {
        return Some(None);
    }
    let place = only_number(rest)?;
    let way = way_of(place, machine)?;
    Some(Some(way))
}

// A drop in this slice.
fn drop_of(rest: &[u8], machine: &Machine, slice: u32) -> Option<What>
    requires { slice < slice_count (parameters_of machine.now) }
    ensures { MatchOption result
        ((what : What) → IsRest (parameters_of machine.now) slice kinds.Drop rest.now what → ⊥)
        (IsRest (parameters_of machine.now) slice kinds.Drop rest.now) }
{
    let (number, rest) = take_number(rest)?;
    let line = line_in(number, machine, slice)?;
    let way = dropped_from(rest, machine)?;
    Some(What::Drop { line, way })
}

// This, where nothing more stands in the line.
fn nothing_more(rest: &[u8], what: What) -> Option<What>
    ensures { MatchOption result (rest.now ≡ [] → ⊥) (λ w. (w ≡ what) × (rest.now ≡ [])) }
{
    if rest.is_empty() { Some(what) } else { None }
}

/// What happened in this slice, by the kind of the entry and the rest of its line; None where the rest says nothing of this kind.
pub(crate) fn what_of(kind: EntryKind, rest: &[u8], machine: &Machine, slice: u32) -> Option<What>
    requires { slice < slice_count (parameters_of machine.now) }
    ensures { MatchOption result ((what : What) → IsRest (parameters_of machine.now) slice kind rest.now what → ⊥) (IsRest (parameters_of machine.now) slice kind rest.now) }
{
    match kind {
        EntryKind::Access => access_of(rest, machine, slice),
        EntryKind::Raise => nothing_more(rest, What::Raise),
        EntryKind::Flush => nothing_more(rest, What::Flush),
        EntryKind::Lock => lock_of(rest, machine, slice),
        EntryKind::Look => look_of(rest, machine, slice),
        EntryKind::Drop => drop_of(rest, machine, slice),
    }
}
