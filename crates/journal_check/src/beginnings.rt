//! When each op began.
ghost use Rattle.std.specs.Prelude.{◌≡◌, ℕ, ◌+◌, ◌<◌, ◌≤◌, All, IfOk, length};
ghost use Rattle.journal_check.specs.Begun.{AreBegun};
ghost use Rattle.journal_check.specs.Tables.{AreTakenOnce, IsTableOf, row_of};
ghost use Rattle.run_law.specs.Clauses.{AccessesAreTrue, EntriesStandOnce, OthersAreTrue};
ghost use Rattle.journal_check.specs.Marks.{AreStarts};
ghost use Rattle.machine.specs.Slices.{slice_count};
ghost use Rattle.script_ops.specs.declared.limits.TheConstants.{MOST_WEIGHT};
ghost use Rattle.run_law.specs.TreeHistory.{IsLegalTree};

use crate::op_kinds::is_access_at;
use crate::op_table::OpTable;
use rc_base::NoMemory;
use run_law::Journals;
use script_ops::Script;
use std::alloc::Global;

// Notes when each command began: at its position in the tree's history.
fn begin_commands(starts: &mut OpTable, script: &Script, j: &Journals)
    requires table { IsTableOf script.now starts.old }
    requires legal { IsLegalTree script.now j.now.tree }
    requires once { AreTakenOnce script.now j.now.tree }
    ensures table { IsTableOf script.now starts.new }
    ensures begun { AreBegun script.now j.now (length j.now.tree) 0 0 starts.new }
{
    let tree = j.tree();
    for k in 0..tree.len() {
        let entry = &tree[k];
        starts.set(entry.thread, entry.op, k as u64);
    }
}

// Notes when each access with an entry in slice i began: at the epoch of its entry.
fn begin_accesses(starts: &mut OpTable, script: &Script, j: &Journals, i: u32)
    requires slice { i < length j.now.slices }
    requires all { length j.now.slices ≡ slice_count script.now.machine }
    requires table { IsTableOf script.now starts.old }
    requires legal { IsLegalTree script.now j.now.tree }
    requires made { EntriesStandOnce script.now j.now }
    requires begun { AreBegun script.now j.now (length j.now.tree) i 0 starts.old }
    ensures table { IsTableOf script.now starts.new }
    ensures begun { AreBegun script.now j.now (length j.now.tree) (i + 1) 0 starts.new }
{
    let entries = j.slice(i);
    for p in 0..entries.len() {
        let entry = entries[p];
        if is_access_at(script, entry.thread, entry.op) {
            starts.set(entry.thread, entry.op, entry.epoch);
        }
    }
}

/// When each op began, where each stands once: a command at its position in the tree's history, and an access at the epoch of its
/// entry, in the time of the ops and the entries. NoMemory where there is no room for the numbers.
pub fn starts_of(alloc: Global, script: &Script, j: &Journals) -> Result<OpTable, NoMemory>
    requires all { length j.now.slices ≡ slice_count script.now.machine }
    requires legal { IsLegalTree script.now j.now.tree }
    requires once { AreTakenOnce script.now j.now.tree }
    requires made { EntriesStandOnce script.now j.now }
    requires accesses { AccessesAreTrue script.now j.now }
    requires others { OthersAreTrue script.now j.now }
    ensures starts { IfOk result (λ t. AreStarts script.now j.now t) }
    ensures few { IfOk result (λ t. (thread : ℕ) → All (λ n. n ≤ MOST_WEIGHT) (row_of t thread)) }
{
    // The ops of a script fit its machine.
    let _threads = script.threads();
    let mut starts = OpTable::create(alloc, script)?;
    begin_commands(&mut starts, script, j);
    for i in 0..script.machine().slice_count() {
        begin_accesses(&mut starts, script, j, u32::from(i));
    }
    Ok(starts)
}
