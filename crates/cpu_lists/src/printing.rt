//! The canonical texts of a set of CPUs.
ghost use Rattle.std.specs.Prelude.{◌≡◌, ◌+◌, ◌-◌, ◌*◌, ◌≤◌, ◌<◌, [], ◌∷◌, ◌++◌, length, MatchOption, if◌then◌else◌};
ghost use Rattle.cpu_lists.specs.Sets.{numbers_from};
ghost use Rattle.cpu_lists.specs.Printed.{element_text, list_text, mask_text, run_text, runs_of};

use crate::runs::{Run, next};
use num_text::{push_dec, push_hex};
use rc_base::TextBuf;

/// Adds a set of CPUs of a machine of `cpus` CPUs as a mask: a group of hexadecimal digits for
/// every 32 CPUs begun, separated by `,`. Each has 8 digits but the first, which has a digit for
/// every four of its CPUs begun (kernel documentation, the format of `cpus`; the lengths of
/// groups are this project's profile).
pub fn print_mask(set: u64, cpus: u8, out: &mut TextBuf)
    requires cpus { cpus ≤ 64 }
    requires room { 256 ≤ out.old.spare }
    ensures bytes { out.new.bytes ≡ out.old.bytes ++ mask_text cpus set }
    ensures spare { out.new.spare + length (mask_text cpus set) ≡ out.old.spare }
{
    if cpus <= 32 {
        push_hex(set, cpus.div_ceil(4), out);
    } else {
        push_hex(set >> 32, (cpus - 32).div_ceil(4), out);
        out.push(b',');
        push_hex(set % (1 << 32), 8, out);
    }
}

// The first maximal run of a set from here on.
fn run_from(set: u64, from: u32) -> Option<Run>
    requires { from ≤ 64 }
    ensures { MatchOption result
        (numbers_from set from ≡ [])
        (λ run. (from ≤ run.first) × (run.first ≤ run.last) × (run.last < 64)
        × (runs_of (numbers_from set from) ≡ run ∷ runs_of (numbers_from set (run.last + 1)))) }
{
    let first = next(set, from, true);
    if first == 64 {
        return None;
    }
    let end = next(set, first, false);
    Some(Run {
        first: u64::from(first),
        last: u64::from(end - 1),
    })
}

// Adds a run.
fn push_run(run: Run, out: &mut TextBuf)
    requires order { run.first ≤ run.last }
    requires high { run.last < 64 }
    requires room { 23 ≤ out.old.spare }
    ensures bytes { out.new.bytes ≡ out.old.bytes ++ run_text run }
    ensures spare { out.new.spare + length (run_text run) ≡ out.old.spare }
    ensures short { length (run_text run) + 1 ≤ 3 * (run.last + 1 - run.first) }
{
    push_dec(run.first, out);
    if run.first != run.last {
        out.push(b'-');
        push_dec(run.last, out);
    }
}

// Adds a run, after a comma where it is not the first.
fn push_element(is_first: bool, run: Run, out: &mut TextBuf)
    requires order { run.first ≤ run.last }
    requires high { run.last < 64 }
    requires room { 24 ≤ out.old.spare }
    ensures bytes { out.new.bytes ≡ out.old.bytes ++ element_text is_first run }
    ensures spare { out.new.spare + length (element_text is_first run) ≡ out.old.spare }
    ensures short { length (element_text is_first run) ≤ 3 * (run.last + 1 - run.first) }
{
    if !is_first {
        out.push(b',');
    }
    push_run(run, out);
}

/// Adds a set of CPUs as a list: its maximal runs, rising and separated by `,`, a run of one as
/// `a` and a longer one as `a-b` (kernel documentation, the format of `cpus_list`).
pub fn print_list(set: u64, out: &mut TextBuf)
    requires { 256 ≤ out.old.spare }
    ensures bytes { out.new.bytes ≡ out.old.bytes ++ list_text set }
    ensures spare { out.new.spare + length (list_text set) ≡ out.old.spare }
{
    let mut from = 0;
    'runs: loop {
        let Some(run) = run_from(set, from) else {
            return;
        };
        push_element(from == 0, run, out);
        from = run.last as u32 + 1;
    }
}
