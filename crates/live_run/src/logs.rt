//! The journals of a run before it begins.
ghost use Rattle.std.specs.Prelude.{◌≡◌, IfOk, length};
ghost use Rattle.live_run.specs.Logs.{AreSliceLogs};
ghost use Rattle.live_run.specs.Quotas.{HaveQuotas};
ghost use Rattle.machine.specs.Slices.{slice_count};
ghost use Rattle.run_law.specs.Quotas.{AreCounted};
ghost use Rattle.script_ops.specs.Values.{threads_of};

use crate::log::Log;
use crate::quotas::{slice_quotas, thread_rooms, tree_quotas};
use cache_core::SliceEntry;
use rc_base::NoMemory;
use run_law::{TreeEntry, command_counts};
use script_ops::Script;
use std::alloc::Global;
use std::marker::Model;

/// The journals of a run before it begins: the tree's, and one for each slice, with their passes. Contracts see their names.
#[derive(Drop)]
pub struct Logs {
    pub(crate) tree: Log<TreeEntry>,
    pub(crate) slices: Vec<Log<SliceEntry>>,
}

impl Model for Logs {
    ghost use Rattle.std.specs.Prelude.{map};
    ghost use Rattle.live_run.specs.Logs.{AreWhole, LogValue, LogsValue};

    ghost Value = { LogsValue };

    ghost view = { λ l. record { tree = l.tree.name; slices = map (λ (s : LogValue). s.name) l.slices.items } };

    ghost invariant = { λ l. AreWhole l.tree l.slices.items };
}

impl Logs {
    /// An empty journal for the tree and one for each slice, with room for all that the script can make. NoMemory where there is
    /// none.
    pub fn create(alloc: Global, script: &Script) -> Result<Logs, NoMemory>
        ensures { IfOk result (λ l. HaveQuotas script.now l.tree l.slices) }
    {
        let counts = command_counts(alloc, script)?;
        let quotas = tree_quotas(alloc, script, &counts)?;
        let tree = Log::create(alloc, &quotas)?;
        let slices = slice_logs(alloc, script, &counts)?;
        Ok(Logs { tree, slices })
    }
}

// The journals of the slices. `counts` says how many commands each thread has.
fn slice_logs(
    alloc: Global,
    script: &Script,
    counts: &[u64],
) -> Result<Vec<Log<SliceEntry>>, NoMemory>
    requires { AreCounted script.now (length (threads_of script.now)) counts.now }
    ensures { IfOk result (λ logs. AreSliceLogs script.now (slice_count script.now.machine) logs.items) }
{
    let rooms = thread_rooms(alloc, script, counts)?;
    let mut logs = Vec::new(alloc);
    for i in 0..usize::from(script.machine().slice_count()) {
        let quotas = slice_quotas(alloc, script, &rooms, i)?;
        logs.push(Log::create(alloc, &quotas)?)?;
    }
    Ok(logs)
}
