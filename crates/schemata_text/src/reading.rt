//! Reading a schemata text from left to right.
ghost use Rattle.std.specs.Prelude.{◌≡◌, ◌≤◌, ◌<◌, false, MatchResult, IfOk, Ok, Err, [], ◌∷◌};
ghost use Rattle.std.specs.List.{list_any, after_first};
ghost use Rattle.cbm.specs.Validity.{checked};
ghost use Rattle.schemata_text.specs.Items.{Entry, items_of_rest, colon};
ghost use Rattle.schemata_text.specs.Reading.{AreLawful, Continues, Gives, domain_of, entry_of, is_of, line_of, reading};

use crate::assignment::{Assignment, Assignments};
use crate::fault::TextFault;
use cbm::{Geometry, check};
use num_text::{cut, read_dec, read_hex, trim};
use rc_base::is_text;

// The domain of an id.
fn domain(id: &[u8], domains: u8) -> Result<u8, TextFault>
    ensures { result ≡ domain_of domains id.now }
{
    match read_dec(trim(id)) {
        Some(n) if n < u64::from(domains) => Ok(n as u8),
        _ => Err(TextFault::BadDomain),
    }
}

// Whether one of these assignments is of this domain.
fn is_named(domain: u8, before: &[Assignment]) -> bool
    ensures { result ≡ list_any (is_of domain) before.now }
{
    before.iter().any(|a| domain == a.domain)
}

/// What an entry `id=mask` says, where these assignments stand before it, for masks of this geometry and domains from 0 to below
/// `domains`. An error is the first fault that it has (kernel documentation, the format of `schemata`; the order is this project's
/// profile).
#[tactic(auto, unfolding(crate::specs::Reading::entry_of))]
pub fn entry(
    text: &[u8],
    g: &Geometry,
    domains: u8,
    before: &[Assignment],
) -> Result<Assignment, TextFault>
    requires { g.now.len ≤ 32 }
    ensures said { result ≡ entry_of g.now domains before.now text.now }
    ensures fresh { IfOk result (λ a.
        (a.domain < domains) × (list_any (is_of a.domain) before.now ≡ false)) }
    ensures valid { IfOk result (λ a. checked g.now a.mask ≡ Ok a.mask) }
{
    let (id, mask) = cut(text, b'=');
    let Some(mask) = mask else {
        return Err(TextFault::NoEquals);
    };
    let domain = domain(id, domains)?;
    if is_named(domain, before) {
        return Err(TextFault::Twice { domain });
    }
    let Some(bits) = read_hex(trim(mask)) else {
        return Err(TextFault::NotHex);
    };
    match check(bits, g) {
        Ok(mask) => Ok(Assignment { domain, mask }),
        Err(fault) => Err(TextFault::Mask { bits, fault }),
    }
}

// What stands after the colon of a good line.
#[tactic(auto, unfolding(crate::specs::Reading::line_of))]
fn line(text: &[u8]) -> Result<&[u8], TextFault>
    ensures { MatchResult result
        (λ rest. (line_of text.now ≡ Ok tt) × (rest.now ≡ after_first colon text.now))
        (λ fault. line_of text.now ≡ Err fault) }
{
    let (name, rest) = cut(text, b':');
    let Some(rest) = rest else {
        return Err(TextFault::NoColon);
    };
    if !is_text(trim(name), b"L3".as_slice()) {
        return Err(TextFault::BadResource);
    }
    if trim(rest).is_empty() {
        return Err(TextFault::NoValue);
    }
    Ok(rest)
}

// Adds what an entry says.
fn add_entry(text: &[u8], g: &Geometry, domains: u8, all: &mut Assignments) -> Result<(), TextFault>
    requires len { g.now.len ≤ 32 }
    requires domains { domains ≤ 8 }
    requires lawful { AreLawful g.now domains all.old.items }
    ensures lawful { AreLawful g.now domains all.new.items }
    ensures said { Continues g.now domains all.old.items (Entry text.now ∷ []) result all.new.items }
{
    match entry(text, g, domains, all.as_slice()) {
        Ok(found) => {
            all.push(found);
            Ok(())
        }
        Err(fault) => Err(fault),
    }
}

/// Adds what the entries of a line say, from left to right. They are separated by `;`, and `rest` is what stands after the line's colon.
/// An error is the fault of the first bad one, and then what the good ones before it say has been added.
pub fn entries(
    rest: &[u8],
    g: &Geometry,
    domains: u8,
    all: &mut Assignments,
) -> Result<(), TextFault>
    requires len { g.now.len ≤ 32 }
    requires domains { domains ≤ 8 }
    requires lawful { AreLawful g.now domains all.old.items }
    ensures lawful { AreLawful g.now domains all.new.items }
    ensures said { Continues g.now domains all.old.items (items_of_rest rest.now) result all.new.items }
{
    let mut left = rest;
    'pieces: loop {
        let (text, more) = cut(left, b';');
        match add_entry(text, g, domains, all) {
            Ok(()) => {}
            Err(fault) => return Err(fault),
        }
        let Some(rest) = more else {
            return Ok(());
        };
        if rest.is_empty() {
            return Ok(());
        }
        left = rest;
    }
}

/// The assignments of a text, in its order, or the fault of its first bad item from left to right.
///
/// A text is lines separated by newlines. A line is `L3`, a `:`, and entries separated by `;`; an
/// empty last entry after a `;` is dropped. An entry is the number of a domain, a `=`, and a mask
/// in hexadecimal, after an optional `0x` or `0X`. Blanks around each of these are dropped
/// (kernel documentation, the format of `schemata`; the blanks, the empty last entry and the
/// order of faults are this project's profile).
pub fn read(text: &[u8], g: &Geometry, domains: u8) -> Result<Assignments, TextFault>
    requires len { g.now.len ≤ 32 }
    requires domains { domains ≤ 8 }
    ensures exact { Gives (λ v. v.items) result (reading g.now domains text.now) }
    ensures lawful { IfOk result (λ v. AreLawful g.now domains v.items) }
{
    let mut all = Assignments::new();
    let mut left = text;
    'lines: loop {
        let (front, more) = cut(left, b'\n');
        let rest = match line(front) {
            Ok(rest) => rest,
            Err(fault) => return Err(fault),
        };
        match entries(rest, g, domains, &mut all) {
            Ok(()) => {}
            Err(fault) => return Err(fault),
        }
        match more {
            None => return Ok(all),
            Some(rest) => left = rest,
        }
    }
}
