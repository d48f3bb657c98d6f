//! The machine line.
ghost use Rattle.std.specs.Prelude.{◌≡◌, MatchOption, None, Some};
ghost use Rattle.machine.specs.Maps.{parameters_of};
ghost use Rattle.line_words.specs.Lines.{words};
ghost use Rattle.script_lines.specs.Keys.{keys_of, parameters_from, machine_of};

use crate::keys::{Keys, no_keys, with_key};
use line_words::next_word;
use machine::{Machine, Parameters};
use num_text::cut;

#[tactic(auto, unfolding(crate::specs::Keys::keys_from))]
fn keys_of(text: &[u8]) -> Option<Keys>
    ensures { result ≡ keys_of (words text.now) }
{
    let mut keys = no_keys();
    let mut left = text;
    'words: loop {
        let Some((word, rest)) = next_word(left) else {
            return Some(keys);
        };
        let (key, value) = cut(word, b'=');
        let Some(value) = value else {
            return None;
        };
        let Some(more) = with_key(keys, key, value) else {
            return None;
        };
        keys = more;
        left = rest;
    }
}

/// The parameters that keys give, each with its default.
pub fn parameters(keys: Keys) -> Parameters
    ensures { result ≡ parameters_from keys }
{
    let domains = keys.domains.unwrap_or(1);
    Parameters {
        domains,
        sets: keys.sets.unwrap_or(64),
        ways: keys.ways.unwrap_or(8),
        classes: keys.classes.unwrap_or(8),
        rmids: keys.rmids.unwrap_or(16),
        cpus: keys.cpus.unwrap_or(domains),
        min: keys.min.unwrap_or(1),
        shareable: keys.shareable.unwrap_or(0),
        threshold: keys.threshold.unwrap_or(0),
        sparse: keys.sparse.unwrap_or(0) == 1,
        slices: keys.slices.unwrap_or(1),
    }
}

/// KEY=VALUE ...
pub fn machine_args(text: &[u8]) -> Option<Machine>
    ensures { MatchOption result (machine_of (words text.now) ≡ None) (λ m. machine_of (words text.now) ≡ Some (parameters_of m)) }
{
    let keys = keys_of(text)?;
    Machine::checked(&parameters(keys))
}
