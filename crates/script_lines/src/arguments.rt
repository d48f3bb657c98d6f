//! The arguments of a line.
ghost use Rattle.std.specs.Prelude.{◌≡◌, ◌<◌, ◌+◌, ◌*◌, ◌-◌, ◌^◌, IfSome, MatchOption, None, Some};
ghost use Rattle.num_text.specs.Numbers.{dec_of, below};
ghost use Rattle.machine.specs.Maps.{parameters_of};
ghost use Rattle.line_words.specs.Lines.{words};
ghost use Rattle.script_lines.specs.Arguments.{access_of, flush_of, sweep_of, touch_of, trace_of, use_of, cpu_of, addr_of, drop_line_of, drop_region_of, has_path};

use line_words::{five_words, four_words, next_word, no_word, one_word, three_words, two_words};
use machine::Machine;
use num_text::{read_dec, read_dec_capped, read_num};

/// A task on a CPU, and the address or the offset that it uses.
#[derive(Clone, Copy, Debug, PartialEq, Eq)]
pub struct Use {
    pub task: u64,
    pub cpu: u8,
    pub at: u64,
}

/// The first access of a sweep, how many accesses it has, and how many bytes they are apart.
#[derive(Clone, Copy, Debug, PartialEq, Eq)]
pub struct Sweep {
    pub first: Use,
    pub count: u64,
    pub stride: u64,
}

fn cpu(m: &Machine, word: &[u8]) -> Option<u8>
    ensures { result ≡ cpu_of (parameters_of m.now) word.now }
{
    let cpus = u64::from(m.cpus);
    match read_dec(word) {
        Some(n) if n < cpus => Some(n as u8),
        _ => None,
    }
}

fn domain(m: &Machine, word: &[u8]) -> Option<u8>
    ensures { result ≡ below m.now.domains (dec_of word.now) }
{
    let domains = u64::from(m.domains);
    match read_dec(word) {
        Some(n) if n < domains => Some(n as u8),
        _ => None,
    }
}

fn addr(word: &[u8]) -> Option<u64>
    ensures { result ≡ addr_of word.now }
{
    match read_num(word) {
        Some(n) if n < 1 << 48 => Some(n),
        _ => None,
    }
}

#[tactic(auto, unfolding(crate::specs::Arguments::use_of))]
fn one_use(m: &Machine, task: &[u8], cpu_word: &[u8], place: Option<u64>) -> Option<Use>
    ensures { result ≡ use_of (parameters_of m.now) task.now cpu_word.now place }
{
    let task = read_dec_capped(task)?;
    let cpu = cpu(m, cpu_word)?;
    let at = place?;
    Some(Use { task, cpu, at })
}

/// Whether the first word begins with a `/`.
pub fn has_path(text: &[u8]) -> bool
    ensures { result ≡ has_path (words text.now) }
{
    matches!(next_word(text), Some(([b'/', ..], _)))
}

/// ADDR, an address alone.
pub fn drop_line_args(text: &[u8]) -> Option<u64>
    ensures { result ≡ drop_line_of (words text.now) }
{
    let word = one_word(text)?;
    addr(word)
}

/// PATH OFFSET: the path, and the offset.
#[tactic(auto, unfolding(crate::specs::Arguments::drop_region_of))]
pub fn drop_region_args(text: &[u8]) -> Option<(&[u8], u64)>
    ensures { MatchOption result (drop_region_of (words text.now) ≡ None) (λ p. drop_region_of (words text.now) ≡ Some (p.0.now, p.1)) }
{
    let words = two_words(text)?;
    let offset = read_num(words.1)?;
    Some((words.0, offset))
}

/// TASK CPU ADDR
pub fn access_args(m: &Machine, text: &[u8]) -> Option<Use>
    ensures { result ≡ access_of (parameters_of m.now) (words text.now) }
{
    let words = three_words(text)?;
    one_use(m, words.0, words.1, addr(words.2))
}

/// TASK CPU, whose address is 0.
pub fn trace_args(m: &Machine, text: &[u8]) -> Option<Use>
    ensures { result ≡ trace_of (parameters_of m.now) (words text.now) }
{
    let words = two_words(text)?;
    one_use(m, words.0, words.1, Some(0))
}

/// An optional domain.
pub fn flush_args(m: &Machine, text: &[u8]) -> Option<Option<u8>>
    ensures { result ≡ flush_of (parameters_of m.now) (words text.now) }
{
    if no_word(text) {
        return Some(None);
    }
    let word = one_word(text)?;
    let domain = domain(m, word)?;
    Some(Some(domain))
}

/// TASK CPU ADDR COUNT STRIDE
#[tactic(auto, unfolding(crate::specs::Arguments::sweep_of))]
pub fn sweep_args(m: &Machine, text: &[u8]) -> Option<Sweep>
    ensures said { result ≡ sweep_of (parameters_of m.now) (words text.now) }
    ensures fits { IfSome result (λ w. (0 < w.count) × (w.first.at + (w.count - 1) * w.stride < 2 ^ 48)) }
{
    let words = five_words(text)?;
    let first = one_use(m, words.0, words.1, addr(words.2))?;
    let count = read_dec_capped(words.3)?;
    let stride = read_num(words.4)?;
    if count == 0 || u128::from(first.at) + u128::from(count - 1) * u128::from(stride) >= 1 << 48 {
        return None;
    }
    Some(Sweep {
        first,
        count,
        stride,
    })
}

/// PATH OFFSET TASK CPU: the path, and the rest.
#[tactic(auto, unfolding(crate::specs::Arguments::touch_of))]
pub fn touch_args<'a>(m: &Machine, text: &'a [u8]) -> Option<(&'a [u8], Use)>
    ensures { MatchOption result (touch_of (parameters_of m.now) (words text.now) ≡ None) (λ p. touch_of (parameters_of m.now) (words text.now) ≡ Some (p.0.now, p.1)) }
{
    let words = four_words(text)?;
    let used = one_use(m, words.2, words.3, read_num(words.1))?;
    Some((words.0, used))
}
