//! The canonical text of schemata.
ghost use Rattle.std.specs.Prelude.{◌≡◌, ◌+◌, ◌≤◌, ◌++◌, length};
ghost use Rattle.schemata_text.specs.Printed.{entry_text, printed};

use crate::assignment::Assignment;
use num_text::{push_dec, push_hex};
use rc_base::TextBuf;

// Adds `id=mask`.
fn push_entry(domain: u8, mask: u32, ways: u8, out: &mut TextBuf)
    requires ways { ways ≤ 32 }
    requires room { 24 ≤ out.old.spare }
    ensures bytes { out.new.bytes ≡
        out.old.bytes ++ entry_text ways (record { domain = domain; mask = mask }) }
    ensures spare { out.new.spare + length (entry_text ways (record { domain = domain; mask = mask })) ≡ out.old.spare }
    ensures short { length (entry_text ways (record { domain = domain; mask = mask })) ≤ 12 }
{
    push_dec(u64::from(domain), out);
    out.push(b'=');
    push_hex(u64::from(mask), ways.div_ceil(4), out);
}

/// Adds `L3:` and `id=mask` of each item, in their order and separated by `;`, with each mask in
/// a hexadecimal digit for every four ways begun, and no newline (this project's profile).
pub fn print(masks: &[Assignment], ways: u8, out: &mut TextBuf)
    requires few { length masks.now ≤ 8 }
    requires ways { ways ≤ 32 }
    requires room { 128 ≤ out.old.spare }
    ensures bytes { out.new.bytes ≡ out.old.bytes ++ printed ways masks.now }
    ensures spare { out.new.spare + length (printed ways masks.now) ≡ out.old.spare }
{
    out.push_all(b"L3:".as_slice());
    let [first, others @ ..] = masks else {
        return;
    };
    push_entry(first.domain, first.mask, ways, out);
    for a in others {
        out.push(b';');
        push_entry(a.domain, a.mask, ways, out);
    }
}
