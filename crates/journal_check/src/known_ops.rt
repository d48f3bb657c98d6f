//! Whether every entry is of an op of the script.
ghost use Rattle.std.specs.Prelude.{◌≡◌, ℕ, ◌<◌, ◌↔◌, IsSome, IsTrue, length};
ghost use Rattle.journal_check.specs.Orders.{AreOfOps};
ghost use Rattle.machine.specs.Slices.{slice_count};
ghost use Rattle.run_law.specs.Journals.{slice_at};
ghost use Rattle.script_ops.specs.Values.{op_at};

use cache_core::SliceEntry;
use run_law::Journals;
use script_ops::Script;

// Whether an entry is of an op of the script.
fn is_of_op(script: &Script, entry: &SliceEntry) -> bool
    ensures { IsTrue result ↔ IsSome (op_at script.now entry.now.thread entry.now.op) }
{
    script.op(entry.thread, entry.op).is_some()
}

// Whether each of the entries of slice i is.
fn are_of_ops(script: &Script, j: &Journals, i: u32) -> bool
    requires { i < length j.now.slices }
    ensures { IsTrue result ↔ AreOfOps script.now (slice_at j.now i) }
{
    for entry in j.slice(i) {
        if !is_of_op(script, entry) {
            return false;
        }
    }
    true
}

/// Whether every entry is of an op of the script, in the time of the entries.
pub fn are_known(script: &Script, j: &Journals) -> bool
    requires { length j.now.slices ≡ slice_count script.now.machine }
    ensures { IsTrue result ↔ ((i : ℕ) → AreOfOps script.now (slice_at j.now i)) }
{
    for i in 0..script.machine().slice_count() {
        if !are_of_ops(script, j, u32::from(i)) {
            return false;
        }
    }
    true
}
