//! How many entries of a slice follow its line.
ghost use Rattle.std.specs.Prelude.{◌≡◌, ℕ, ◌%◌, ◌<◌, ◌≤◌, MatchBool, MatchOption};
ghost use Rattle.journal_text.specs.Lines.{slice_line};
ghost use Rattle.machine.specs.Maps.{parameters_of};
ghost use Rattle.machine.specs.Slices.{domain_in, slice_count};

use crate::cursor::{first_word, only_three};
use machine::Machine;
use rc_base::is_text;

// Whether these are the domain of a slice, by its number over all domains, and its number there.
fn is_place(domain: u64, part: u64, machine: &Machine, slice: u32) -> bool
    ensures { MatchBool result
        ((domain ≡ domain_in (parameters_of machine.now) slice) × (part ≡ slice % machine.now.slices))
        ((domain ≡ domain_in (parameters_of machine.now) slice) → (part ≡ slice % machine.now.slices) → ⊥) }
{
    let slices = u32::from(machine.slices);
    domain == u64::from(slice / slices) && part == u64::from(slice % slices)
}

/// The number of entries that the line of this slice says, by the slice's number over all domains. None where the line is no line
/// of this slice, or says more than `weight` (this project's profile).
pub fn count_of_line(line: &[u8], machine: &Machine, slice: u32, weight: u64) -> Option<u64>
    requires { slice < slice_count (parameters_of machine.now) }
    ensures { MatchOption result
        ((n : ℕ) → n ≤ weight → slice_line (parameters_of machine.now) slice n ≡ line.now → ⊥)
        (λ n. (n ≤ weight) × (slice_line (parameters_of machine.now) slice n ≡ line.now)) }
{
    let (word, rest) = first_word(line);
    if !is_text(word, b"slice") {
        return None;
    }
    let (domain, part, count) = only_three(rest)?;
    if !is_place(domain, part, machine, slice) {
        return None;
    }
    if count > weight {
        return None;
    }
    Some(count)
}
