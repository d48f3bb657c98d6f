//! The text of `bit_usage`.
ghost use Rattle.std.specs.Prelude.{◌≡◌, ◌+◌, ◌≤◌, ◌<◌, ◌++◌, length};
ghost use Rattle.bit_usage.specs.Usage.{domain_text, letters_of, usage_text};

use crate::letters::letter;
use mode_rules::DomainUse;
use num_text::push_dec;
use rc_base::TextBuf;

/// Room for the text of `bit_usage`, in bytes (this project's profile).
pub const USAGE_MAX: usize = 512;

/// Adds the text of `bit_usage` for the caches in order, each of `ways` ways: `id=` and the letters from the greatest
/// way down, separated by `;` (kernel documentation, "Info directory", on `bit_usage`).
pub fn print(used: &[DomainUse], ways: u8, out: &mut TextBuf)
    requires domains { length used.now ≤ 8 }
    requires ways { ways ≤ 32 }
    requires room { USAGE_MAX ≤ out.old.spare }
    ensures bytes { out.new.bytes ≡ out.old.bytes ++ usage_text ways used.now }
    ensures spare { out.new.spare + length (usage_text ways used.now) ≡ out.old.spare }
    ensures short { length (usage_text ways used.now) < USAGE_MAX }
{
    for (id, domain) in used.iter().enumerate() {
        if id > 0 {
            out.push(b';');
        }
        print_domain(id as u64, domain, ways, out);
    }
}

// Adds a domain's id and its letters.
#[tactic(auto, using(crate::proofs::Lengths::decimal_digit))]
fn print_domain(id: u64, used: &DomainUse, ways: u8, out: &mut TextBuf)
    requires id { id < 10 }
    requires ways { ways ≤ 32 }
    requires room { 64 ≤ out.old.spare }
    ensures bytes { out.new.bytes ≡ out.old.bytes ++ domain_text ways (id, used.now) }
    ensures spare { out.new.spare + length (domain_text ways (id, used.now)) ≡ out.old.spare }
    ensures len { length (domain_text ways (id, used.now)) ≡ 2 + ways }
{
    push_dec(id, out);
    out.push(b'=');
    push_letters(used, ways, out);
}

// Adds the letters of the first `ways` ways.
fn push_letters(used: &DomainUse, ways: u8, out: &mut TextBuf)
    requires ways { ways ≤ 32 }
    requires room { ways ≤ out.old.spare }
    ensures bytes { out.new.bytes ≡ out.old.bytes ++ letters_of used.now ways }
    ensures spare { out.new.spare + ways ≡ out.old.spare }
{
    for bit in (0..ways).rev() {
        out.push(letter(used, bit));
    }
}
