//! The machine line of a pair script.
ghost use Rattle.std.specs.Prelude.{◌≡◌, MatchOption, None, Some};
ghost use Rattle.line_words.specs.Lines.{words};
ghost use Rattle.pair_text.specs.PairKeys.{GivesMachines, l2_from, machine_from, machines_from, machines_of, no_pair_keys, pair_key, pair_keys_from, with_l2_key, with_machine_key, with_pair_key};

use crate::kind::PairKind;
use line_words::next_word;
use machine::{Machine, Parameters};
use num_text::cut;
use rc_base::is_text;
use script_lines::keys::{Keys, no_keys, number, with_key};
use script_lines::machine_line::parameters;

/// The keys of a machine line so far: those of any machine, and those of an L2.
#[derive(Clone, Copy, Debug, PartialEq, Eq)]
pub struct PairKeys {
    pub keys: Keys,
    pub l2_domains: Option<u8>,
    pub l2_sets: Option<u32>,
    pub l2_ways: Option<u8>,
}

// A key that the machine of a pair script may have.
fn is_pair_key(key: &[u8]) -> bool
    ensures { result ≡ pair_key key.now }
{
    is_text(key, b"domains")
        || is_text(key, b"sets")
        || is_text(key, b"ways")
        || is_text(key, b"classes")
        || is_text(key, b"cpus")
        || is_text(key, b"min")
        || is_text(key, b"shareable")
        || is_text(key, b"sparse")
}

// A key of any machine.
fn with_machine_key(k: PairKeys, key: &[u8], value: &[u8]) -> Option<PairKeys>
    ensures { result ≡ with_machine_key k key.now value.now }
{
    if !is_pair_key(key) {
        return None;
    }
    match with_key(k.keys, key, value) {
        Some(keys) => Some(PairKeys { keys, ..k }),
        None => None,
    }
}

// A key of an L2.
#[tactic(auto, unfolding(crate::specs::PairKeys::with_l2_key))]
fn with_l2_key(k: PairKeys, key: &[u8], value: &[u8]) -> Option<PairKeys>
    ensures { result ≡ with_l2_key k key.now value.now }
{
    if is_text(key, b"l2_domains") {
        let n = number(k.l2_domains.is_some(), 8, value)?;
        let l2_domains = Some(n as u8);
        Some(PairKeys { l2_domains, ..k })
    } else if is_text(key, b"l2_sets") {
        let n = number(k.l2_sets.is_some(), 65_536, value)?;
        let l2_sets = Some(n as u32);
        Some(PairKeys { l2_sets, ..k })
    } else if is_text(key, b"l2_ways") {
        let n = number(k.l2_ways.is_some(), 32, value)?;
        let l2_ways = Some(n as u8);
        Some(PairKeys { l2_ways, ..k })
    } else {
        None
    }
}

// One key more.
fn with_pair_key(kind: PairKind, k: PairKeys, key: &[u8], value: &[u8]) -> Option<PairKeys>
    ensures { result ≡ with_pair_key kind k key.now value.now }
{
    if let Some(more) = with_machine_key(k, key, value) {
        return Some(more);
    }
    match kind {
        PairKind::Cdp => None,
        PairKind::Levels => with_l2_key(k, key, value),
    }
}

// No keys.
fn no_pair_keys() -> PairKeys
    ensures { result ≡ no_pair_keys }
{
    PairKeys {
        keys: no_keys(),
        l2_domains: None,
        l2_sets: None,
        l2_ways: None,
    }
}

// The keys of words.
#[tactic(auto, unfolding(crate::specs::PairKeys::pair_keys_from))]
fn keys_of(kind: PairKind, text: &[u8]) -> Option<PairKeys>
    ensures { result ≡ pair_keys_from kind no_pair_keys (words text.now) }
{
    let mut keys = no_pair_keys();
    let mut left = text;
    'words: loop {
        let Some((word, rest)) = next_word(left) else {
            return Some(keys);
        };
        let (key, value) = cut(word, b'=');
        let Some(value) = value else {
            return None;
        };
        let Some(more) = with_pair_key(kind, keys, key, value) else {
            return None;
        };
        keys = more;
        left = rest;
    }
}

// The caches of the machine.
fn machine_from(kind: PairKind, k: PairKeys) -> Parameters
    ensures { result ≡ machine_from kind k }
{
    let domains = k.keys.domains.unwrap_or(1);
    let least = match kind {
        PairKind::Cdp => domains,
        PairKind::Levels => k.l2_domains.unwrap_or(domains),
    };
    let cpus = k.keys.cpus.unwrap_or(least);
    Parameters {
        cpus,
        slices: 1,
        ..parameters(k.keys)
    }
}

// The caches of the L2.
fn l2_from(k: PairKeys) -> Parameters
    ensures { result ≡ l2_from k }
{
    let domains = k.l2_domains.unwrap_or(k.keys.domains.unwrap_or(1));
    Parameters {
        domains,
        sets: k.l2_sets.unwrap_or(16),
        ways: k.l2_ways.unwrap_or(4),
        shareable: 0,
        ..machine_from(PairKind::Levels, k)
    }
}

// The machine of a script with code and data masks.
#[tactic(auto, unfolding(crate::specs::PairKeys::machines_from))]
fn cdp_machine(k: PairKeys) -> Option<(Machine, Option<Machine>)>
    ensures { GivesMachines result (machines_from PairKind.Cdp k) }
{
    let given = machine_from(PairKind::Cdp, k);
    let Some(machine) = Machine::checked(&given) else {
        return None;
    };
    if given.classes < 2 {
        return None;
    }
    Some((machine, None))
}

// The machines of a script with two levels.
#[tactic(auto, unfolding(crate::specs::PairKeys::machines_from))]
fn level_machines(k: PairKeys) -> Option<(Machine, Option<Machine>)>
    ensures { GivesMachines result (machines_from PairKind.Levels k) }
{
    let Some(machine) = Machine::checked(&machine_from(PairKind::Levels, k)) else {
        return None;
    };
    let Some(l2) = Machine::checked(&l2_from(k)) else {
        return None;
    };
    if l2.domains % machine.domains != 0 {
        return None;
    }
    Some((machine, Some(l2)))
}

/// The machines of words KEY=VALUE: that of the script, and its L2 where the script has two levels. None where a word is no key that may
/// stand there, or a machine is out of range (this project's profile).
pub fn machines_args(kind: PairKind, text: &[u8]) -> Option<(Machine, Option<Machine>)>
    ensures { GivesMachines result (machines_of kind (words text.now)) }
{
    let Some(keys) = keys_of(kind, text) else {
        return None;
    };
    match kind {
        PairKind::Cdp => cdp_machine(keys),
        PairKind::Levels => level_machines(keys),
    }
}
