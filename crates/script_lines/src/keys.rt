//! The keys of a machine line.
ghost use Rattle.std.specs.Prelude.{◌≡◌, ◌<◌, ◌-◌, ◌≤◌, ◌^◌, IfSome};
ghost use Rattle.num_text.specs.Numbers.{dec_of, below};
ghost use Rattle.script_lines.specs.Keys.{once, mask_of, cache_key, id_key, mask_key, with_key, no_keys};

use num_text::{read_dec, read_digits};
use rc_base::is_text;

/// The keys of a machine line so far.
#[derive(Clone, Copy, Debug, PartialEq, Eq)]
pub struct Keys {
    pub domains: Option<u8>,
    pub sets: Option<u32>,
    pub ways: Option<u8>,
    pub classes: Option<u8>,
    pub rmids: Option<u16>,
    pub cpus: Option<u8>,
    pub min: Option<u8>,
    pub shareable: Option<u32>,
    pub threshold: Option<u64>,
    pub sparse: Option<u8>,
    pub slices: Option<u8>,
}

/// A number that is at most `high`, of a key that was not given before.
pub fn number(given: bool, high: u64, text: &[u8]) -> Option<u64>
    requires { high < 2 ^ 64 - 1 }
    ensures said { result ≡ once given high (dec_of text.now) }
    ensures high { IfSome result (λ n. n ≤ high) }
{
    if given {
        return None;
    }
    match read_dec(text) {
        Some(n) if n <= high => Some(n),
        _ => None,
    }
}

// Hexadecimal digits after an optional `0x`.
fn mask_digits(text: &[u8]) -> Option<u64>
    ensures { result ≡ below (2 ^ 64) (mask_of text.now) }
{
    match text {
        [b'0', b'x', rest @ ..] => read_digits(rest, 16),
        _ => read_digits(text, 16),
    }
}

// A mask, of a key that was not given before.
fn mask(given: bool, text: &[u8]) -> Option<u32>
    ensures { result ≡ once given 4294967295 (mask_of text.now) }
{
    if given {
        return None;
    }
    match mask_digits(text) {
        Some(n) if n <= 0xffff_ffff => Some(n as u32),
        _ => None,
    }
}

#[tactic(auto, unfolding(crate::specs::Keys::cache_key))]
fn cache_key(keys: Keys, key: &[u8], value: &[u8]) -> Option<Keys>
    ensures { result ≡ cache_key keys key.now value.now }
{
    if is_text(key, b"domains") {
        let n = number(keys.domains.is_some(), 8, value)?;
        let domains = Some(n as u8);
        Some(Keys { domains, ..keys })
    } else if is_text(key, b"sets") {
        let n = number(keys.sets.is_some(), 65_536, value)?;
        let sets = Some(n as u32);
        Some(Keys { sets, ..keys })
    } else if is_text(key, b"ways") {
        let n = number(keys.ways.is_some(), 32, value)?;
        let ways = Some(n as u8);
        Some(Keys { ways, ..keys })
    } else if is_text(key, b"slices") {
        let n = number(keys.slices.is_some(), 16, value)?;
        let slices = Some(n as u8);
        Some(Keys { slices, ..keys })
    } else {
        None
    }
}

#[tactic(auto, unfolding(crate::specs::Keys::id_key))]
fn id_key(keys: Keys, key: &[u8], value: &[u8]) -> Option<Keys>
    ensures { result ≡ id_key keys key.now value.now }
{
    if is_text(key, b"classes") {
        let n = number(keys.classes.is_some(), 64, value)?;
        let classes = Some(n as u8);
        Some(Keys { classes, ..keys })
    } else if is_text(key, b"rmids") {
        let n = number(keys.rmids.is_some(), 256, value)?;
        let rmids = Some(n as u16);
        Some(Keys { rmids, ..keys })
    } else if is_text(key, b"cpus") {
        let n = number(keys.cpus.is_some(), 64, value)?;
        let cpus = Some(n as u8);
        Some(Keys { cpus, ..keys })
    } else {
        None
    }
}

#[tactic(auto, unfolding(crate::specs::Keys::mask_key))]
fn mask_key(keys: Keys, key: &[u8], value: &[u8]) -> Option<Keys>
    ensures { result ≡ mask_key keys key.now value.now }
{
    if is_text(key, b"min") {
        let n = number(keys.min.is_some(), 32, value)?;
        let min = Some(n as u8);
        Some(Keys { min, ..keys })
    } else if is_text(key, b"shareable") {
        let n = mask(keys.shareable.is_some(), value)?;
        let shareable = Some(n);
        Some(Keys { shareable, ..keys })
    } else if is_text(key, b"threshold") {
        let n = number(keys.threshold.is_some(), 67_108_864, value)?;
        let threshold = Some(n);
        Some(Keys { threshold, ..keys })
    } else if is_text(key, b"sparse") {
        let n = number(keys.sparse.is_some(), 1, value)?;
        let sparse = Some(n as u8);
        Some(Keys { sparse, ..keys })
    } else {
        None
    }
}

/// These keys, and one more; None where it is unknown, was given before or is out of its range.
#[tactic(auto, unfolding(crate::specs::Keys::with_key))]
pub fn with_key(keys: Keys, key: &[u8], value: &[u8]) -> Option<Keys>
    ensures { result ≡ with_key keys key.now value.now }
{
    if let Some(more) = cache_key(keys, key, value) {
        return Some(more);
    }
    if let Some(more) = id_key(keys, key, value) {
        return Some(more);
    }
    mask_key(keys, key, value)
}

/// No keys.
pub fn no_keys() -> Keys
    ensures { result ≡ no_keys }
{
    Keys {
        domains: None,
        sets: None,
        ways: None,
        classes: None,
        rmids: None,
        cpus: None,
        min: None,
        shareable: None,
        threshold: None,
        sparse: None,
        slices: None,
    }
}
