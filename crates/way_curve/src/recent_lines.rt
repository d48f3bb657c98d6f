//! The lines of one set that were used last.
ghost use Rattle.std.specs.Prelude.{◌≡◌, ◌<◌, ◌≤◌, ◌++◌, IfSome, Some, None, drop, length, position, set, take};
ghost use Rattle.std.specs.List.{position_from};
ghost use Rattle.way_curve.specs.Slots.{dropped, empty_slots, has_line, pushed, slot_at, slots_of};

use crate::holes::{ALL_HOLES, end_of_lines, first_hole, is_hole, with_hole, without_hole};
use crate::shifting::{Shift, move_to_front};
use std::marker::Model;

/// The most ways of a cache, and so the most lines that are kept of a set.
pub const MOST_WAYS: usize = 32;

/// The last lines of one set, in 32 slots, the one used last in front. A slot whose line was dropped is a hole until lines move into it.
/// Contracts see the slots.
#[derive(Drop)]
pub struct RecentLines {
    lines: [u64; MOST_WAYS],
    holes: u32,
}

impl Model for RecentLines {
    ghost use Rattle.std.specs.Prelude.{ℕ, List, Option};
    ghost use Rattle.way_curve.specs.Slots.{slots_of};

    ghost Value = { List (Option ℕ) };

    ghost view = { λ r. slots_of r.holes r.lines };
}

impl RecentLines {
    /// No line.
    pub fn new() -> RecentLines
        ensures { result ≡ empty_slots }
    {
        RecentLines {
            lines: [0; MOST_WAYS],
            holes: ALL_HOLES,
        }
    }

    /// Moves a line to the front, and answers in which slot it was: None where it was in none. The lines before it move one slot back,
    /// or only those before the first hole, if there is one before it.
    #[inline(always)]
    pub fn note(&mut self, line: u64) -> Option<usize>
        ensures slot { result ≡ position (has_line line) self.old }
        ensures moved { self.new ≡ pushed line (dropped line self.old) }
        ensures near { IfSome result (λ d. d < MOST_WAYS) }
    {
        let hole = first_hole(self.holes);
        match move_to_front(&mut self.lines[..hole], line) {
            Shift::Found(slot) => Some(slot),
            Shift::Last(last) => self.fill(hole, last, line),
        }
    }

    /// Makes a hole of the slot that has this line, if one has it.
    pub fn drop_line(&mut self, line: u64)
        ensures { self.new ≡ dropped line self.old }
    {
        self.drop_from(0, line);
    }

    // Puts a line into the first hole, if there is one, and makes a hole of the slot behind it that has another line, if one has it.
    fn fill(&mut self, hole: usize, last: u64, line: u64) -> Option<usize>
        requires { hole ≤ MOST_WAYS }
        ensures slot { result ≡ position_from (has_line line) hole (drop hole self.old) }
        ensures near { IfSome result (λ slot. slot < MOST_WAYS) }
        ensures filled { self.new ≡ set (take hole self.old ++ dropped line (drop hole self.old)) hole (Some last) }
    {
        let slot = self.drop_from(hole, line);
        if hole < MOST_WAYS {
            self.put(hole, last);
        }
        slot
    }

    // Makes a hole of the first slot from one on that has this line, and answers which it is.
    fn drop_from(&mut self, from: usize, line: u64) -> Option<usize>
        requires { from ≤ MOST_WAYS }
        ensures slot { result ≡ position_from (has_line line) from (drop from self.old) }
        ensures near { IfSome result (λ slot. slot < MOST_WAYS) }
        ensures dropped { self.new ≡ take from self.old ++ dropped line (drop from self.old) }
        ensures all { length self.new ≡ MOST_WAYS }
    {
        match slot_from(&self.lines, self.holes, from, line) {
            Some(slot) => {
                self.clear(slot);
                Some(slot)
            }
            None => None,
        }
    }

    // Puts a line into a slot.
    fn put(&mut self, slot: usize, line: u64)
        requires { slot < MOST_WAYS }
        ensures { self.new ≡ set self.old slot (Some line) }
    {
        self.lines[slot] = line;
        self.holes = without_hole(self.holes, slot);
    }

    // Makes a hole of a slot.
    fn clear(&mut self, slot: usize)
        requires { slot < MOST_WAYS }
        ensures { self.new ≡ set self.old slot None }
    {
        self.holes = with_hole(self.holes, slot);
    }
}

// The first slot from one on that has this line.
fn slot_from(lines: &[u64; MOST_WAYS], holes: u32, from: usize, line: u64) -> Option<usize>
    requires { from ≤ MOST_WAYS }
    ensures slot { result ≡ position_from (has_line line) from (drop from (slots_of holes lines.now)) }
    ensures near { IfSome result (λ slot. slot < MOST_WAYS) }
{
    for slot in from..end_of_lines(holes) {
        if has_line(lines, holes, slot, line) {
            return Some(slot);
        }
    }
    None
}

// Whether a slot has this line.
fn has_line(lines: &[u64; MOST_WAYS], holes: u32, slot: usize, line: u64) -> bool
    requires { slot < MOST_WAYS }
    ensures { result ≡ has_line line (slot_at holes lines.now slot) }
{
    !is_hole(holes, slot) && lines[slot] == line
}
