//! Where the tree took each command.
ghost use Rattle.std.specs.Prelude.{◌≡◌, IfOk, map};
ghost use Rattle.journal_check.specs.Places.{AreOwnPlaces, ArePlaces};
ghost use Rattle.journal_check.specs.Tables.{AreTakenOnce, IsTableOf};
ghost use Rattle.run_law.specs.Entries.{entry_value};
ghost use Rattle.run_law.specs.TreeHistory.{IsLegalTree};

use crate::op_table::OpTable;
use rc_base::NoMemory;
use run_law::TreeEntry;
use script_ops::Script;
use std::alloc::Global;

/// For each op one more than the position at which the tree took it, and 0 where it is none of the tree's, in the time of the
/// entries and the ops. NoMemory where there is no room for them.
pub fn places_of(alloc: Global, script: &Script, tree: &[TreeEntry]) -> Result<OpTable, NoMemory>
    requires legal { IsLegalTree script.now (map entry_value tree.now) }
    requires once { AreTakenOnce script.now (map entry_value tree.now) }
    ensures table { IfOk result (λ t. IsTableOf script.now t) }
    ensures places { IfOk result (λ t. ArePlaces script.now t (map entry_value tree.now)) }
    ensures own { IfOk result (λ t. AreOwnPlaces t) }
{
    // A script is light, and so a legal history with each of its commands once has few.
    let _threads = script.threads();
    let mut places = OpTable::create(alloc, script)?;
    for k in 0..tree.len() {
        let entry = &tree[k];
        places.set(entry.thread, entry.op, k as u64 + 1);
    }
    Ok(places)
}
