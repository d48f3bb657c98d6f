//! The CPU numbers of a text, as far as it was read.
ghost use Rattle.std.specs.Prelude.{◌≡◌, ℕ, ◌+◌, ◌-◌, ◌*◌, ◌^◌, ◌≤◌, ◌<◌, ◌||◌, ◌&&◌, ◌==◌, Bool, List, Some, IfOk};
ghost use Rattle.cpu_lists.specs.Sets.{Says, answer_of, has as has_number, is_among};
ghost use Rattle.cpu_lists.specs.Lists.{is_within};
ghost use Rattle.cpu_lists.specs.Collected.{Collects, IsBeyond};

use crate::fault::CpuFault;
use crate::runs::{Run, next};

/// A set of numbers, of which those from 64 on are no CPUs.
#[derive(Clone, Copy)]
pub struct Numbers {
    /// Those below 64: bit c is number c.
    pub low: u64,
    /// The least of the others, or 2^64 - 1 where it is greater still.
    pub high: Option<u64>,
}

// The least number from 64 on, where all numbers move up by 32. These moved past 63 just now.
fn raised(moved: u64, high: Option<u64>) -> Option<u64>
    requires { moved < 2 ^ 32 }
    ensures { (value : ℕ) → IsBeyond (has_number value) high
        → ((k : ℕ) → k < 32 → has_number moved k ≡ has_number value (k + 32))
        → IsBeyond (λ k. has_number value (k - 32)) result }
{
    if moved != 0 {
        return Some(64 + u64::from(moved.trailing_zeros()));
    }
    match high {
        Some(n) => Some(n.saturating_add(32)),
        None => None,
    }
}

// The numbers of a run that are below 64, as a set.
fn low_part(run: Run) -> u64
    ensures { (k : ℕ) → k < 64 → has_number result k ≡ is_within run k }
{
    if run.first >= 64 {
        return 0;
    }
    let from_first = u64::MAX << run.first;
    let to_last = u64::MAX >> (63 - run.last.min(63));
    from_first & to_last
}

// A set, with the numbers of a run that are below 64.
fn with_low(set: u64, run: Run) -> u64
    ensures { (k : ℕ) → k < 64 → has_number result k ≡ (has_number set k || is_within run k) }
{
    set | low_part(run)
}

// The least number from 64 on, of a run and of others.
fn with_high(high: Option<u64>, run: Run) -> Option<u64>
    requires { run.first ≤ run.last }
    ensures { (test : ℕ → Bool) → IsBeyond test high
        → IsBeyond (λ k. test k || is_within run k) result }
{
    if run.last < 64 {
        return high;
    }
    let first = run.first.max(64);
    match high {
        Some(n) => Some(n.min(first)),
        None => Some(first),
    }
}

// The set as CPUs of a machine, or the least number that is none of them.
fn judge(low: u64, high: Option<u64>, cpus: u8) -> Result<u64, CpuFault>
    requires { cpus ≤ 64 }
    ensures said { (numbers : List ℕ) → Collects (is_among numbers) (record { low = low; high = high })
        → Says result (answer_of cpus (Some numbers)) }
    ensures exist { IfOk result (λ set. set < 2 ^ cpus) }
{
    let stranger = next(low, u32::from(cpus), true);
    if stranger < 64 {
        return Err(CpuFault::NotACpu {
            cpu: u64::from(stranger),
        });
    }
    match high {
        Some(cpu) => Err(CpuFault::NotACpu { cpu }),
        None => Ok(low),
    }
}

impl Numbers {
    /// The set as CPUs of a machine, or the least number that is none of them.
    pub fn answer(self, cpus: u8) -> Result<u64, CpuFault>
        requires { cpus ≤ 64 }
        ensures said { (numbers : List ℕ) → Collects (is_among numbers) self
            → Says result (answer_of cpus (Some numbers)) }
        ensures exist { IfOk result (λ set. set < 2 ^ cpus) }
    {
        judge(self.low, self.high, cpus)
    }

    /// The numbers of a mask with one more group after it: all so far move up by 32.
    pub fn with_group(self, group: u32) -> Numbers
        ensures { (value : ℕ) → Collects (has_number value) self
            → Collects (has_number (value * 2 ^ 32 + group)) result }
    {
        Numbers {
            low: (self.low << 32) | u64::from(group),
            high: raised(self.low >> 32, self.high),
        }
    }

    /// These numbers and those of a run.
    pub fn with_run(self, run: Run) -> Numbers
        requires { run.first ≤ run.last }
        ensures { (test : ℕ → Bool) → Collects test self
            → Collects (λ k. test k || is_within run k) result }
    {
        Numbers {
            low: with_low(self.low, run),
            high: with_high(self.high, run),
        }
    }
}
