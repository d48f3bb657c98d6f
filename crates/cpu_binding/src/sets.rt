//! Sets of CPU numbers as words.
ghost use Rattle.std.specs.Prelude.{◌≡◌, ◌≢◌, ◌<◌, ℕ, true};
ghost use Rattle.cpu_binding.specs.Sets.{has_cpu};

/// Whether the CPU is in the set.
pub(crate) fn has_cpu(set: u64, cpu: usize) -> bool
    requires { cpu < 64 }
    ensures { result ≡ has_cpu set cpu }
{
    (set >> cpu) & 1 == 1
}

/// The set with this CPU besides.
pub(crate) fn with_cpu(set: u64, cpu: usize) -> u64
    requires { cpu < 64 }
    ensures same { has_cpu result cpu ≡ true }
    ensures others { (other : ℕ) → other ≢ cpu → has_cpu result other ≡ has_cpu set other }
{
    set | (1 << cpu)
}
