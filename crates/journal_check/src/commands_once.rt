//! Whether each command of a script stands in the tree's history exactly once.
ghost use Rattle.std.specs.Prelude.{◌≡◌, ℕ, ◌+◌, ◌^◌, ◌<◌, ◌↔◌, ◌-◌, IfOk, IsTrue, Some, length, map, []};
ghost use Rattle.journal_check.specs.Tables.{AllOnes, AreCounts, AreTakenOnce, CountsOne, HasOnes, IsTableOf, number_at};
ghost use Rattle.run_law.specs.Entries.{entry_value};

use crate::op_kinds::is_command_at;
use crate::op_table::OpTable;
use rc_base::NoMemory;
use run_law::TreeEntry;
use script_ops::{Ops, Script};
use std::alloc::Global;

// Counts one entry of the tree for its op.
fn count(counts: &mut OpTable, script: &Script, entry: &TreeEntry)
    requires table { IsTableOf script.now counts.old }
    requires room { (n : ℕ) → number_at counts.old entry.now.thread entry.now.op ≡ Some n → n < 2 ^ 64 - 1 }
    ensures table { IsTableOf script.now counts.new }
    ensures counted { CountsOne counts.old counts.new (entry_value entry.now) }
{
    if let Some(n) = counts.get(entry.thread, entry.op) {
        counts.set(entry.thread, entry.op, n + 1);
    }
}

// Counts the entries of the tree for each op.
fn count_all(counts: &mut OpTable, script: &Script, tree: &[TreeEntry])
    requires table { IsTableOf script.now counts.old }
    requires zero { AreCounts counts.old [] }
    ensures table { IsTableOf script.now counts.new }
    ensures counts { AreCounts counts.new (map entry_value tree.now) }
{
    for entry in tree {
        count(counts, script, entry);
    }
}

// Whether each command among the ops of a thread has the number 1.
fn has_ones(ops: &Ops, counts: &[u64]) -> bool
    requires { length counts.now ≡ length ops.now }
    ensures { IsTrue result ↔ HasOnes ops.now counts.now }
{
    for i in 0..ops.len() {
        if is_command_at(ops, i) && counts[i] != 1 {
            return false;
        }
    }
    true
}

/// Whether each command of the script has the number 1.
pub(crate) fn all_ones(counts: &OpTable, script: &Script) -> bool
    requires { IsTableOf script.now counts.now }
    ensures { IsTrue result ↔ AllOnes script.now counts.now }
{
    for thread in 0..script.threads() {
        if !has_ones(script.ops(thread), counts.row(thread)) {
            return false;
        }
    }
    true
}

/// Whether each command of a script stands in the tree's history exactly once, in the time of the entries and the ops.
pub fn are_taken_once(alloc: Global, script: &Script, tree: &[TreeEntry]) -> Result<bool, NoMemory>
    ensures { IfOk result (λ yes. IsTrue yes ↔ AreTakenOnce script.now (map entry_value tree.now)) }
{
    let mut counts = OpTable::create(alloc, script)?;
    count_all(&mut counts, script, tree);
    Ok(all_ones(&counts, script))
}
