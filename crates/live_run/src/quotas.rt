//! The quotas of the journals.
ghost use Rattle.std.specs.Prelude.{◌≡◌, ◌<◌, ◌≤◌, ◌++◌, IfOk, OnOk, length, replicate, sum};
ghost use Rattle.live_run.specs.Logs.{AreThreadRooms};
ghost use Rattle.live_run.specs.Quotas.{slice_quotas, tree_quotas};
ghost use Rattle.machine.specs.Slices.{slice_count};
ghost use Rattle.run_law.specs.Quotas.{AreCounted};
ghost use Rattle.script_ops.specs.Values.{threads_of};
ghost use Rattle.script_ops.specs.declared.limits.TheConstants.{MOST_WEIGHT};

use rc_base::NoMemory;
use run_law::add_ops;
use script_ops::Script;
use std::alloc::Global;

// The quotas of passes that add nothing.
fn push_none(quotas: &mut Vec<u32>, passes: u8) -> Result<(), NoMemory>
    ensures { OnOk result (quotas.new.items ≡ quotas.old.items ++ replicate passes 0) }
{
    for _ in 0..passes {
        quotas.push(0)?;
    }
    Ok(())
}

/// The quotas of the tree's journal. `counts` says how many commands each thread has. NoMemory where there is no room for them.
pub(crate) fn tree_quotas(
    alloc: Global,
    script: &Script,
    counts: &[u64],
) -> Result<Vec<u32>, NoMemory>
    requires { AreCounted script.now (length (threads_of script.now)) counts.now }
    ensures quotas { IfOk result (λ quotas. quotas.items ≡ tree_quotas script.now) }
    ensures some { IfOk result (λ quotas. 0 < length quotas.items) }
    ensures few { IfOk result (λ quotas. sum quotas.items ≤ MOST_WEIGHT) }
{
    let mut quotas = Vec::new(alloc);
    for t in 0..script.threads() {
        quotas.push(counts[t as usize] as u32)?;
    }
    push_none(&mut quotas, script.machine().slice_count())?;
    Ok(quotas)
}

/// For each thread how many entries its ops can make in each slice. NoMemory where there is no room for the numbers.
pub(crate) fn thread_rooms(
    alloc: Global,
    script: &Script,
    counts: &[u64],
) -> Result<Vec<Vec<u64>>, NoMemory>
    requires { AreCounted script.now (length (threads_of script.now)) counts.now }
    ensures { IfOk result (λ rooms. AreThreadRooms script.now (length (threads_of script.now)) rooms.items) }
{
    let mut rooms = Vec::new(alloc);
    for t in 0..script.threads() {
        let mut own = vec![in alloc; 0; usize::from(script.machine().slice_count())]?;
        add_ops(script, script.ops(t), counts[t as usize], &mut own);
        rooms.push(own)?;
    }
    Ok(rooms)
}

/// The quotas of the journal of a slice. NoMemory where there is no room for them.
pub(crate) fn slice_quotas(
    alloc: Global,
    script: &Script,
    rooms: &Vec<Vec<u64>>,
    i: usize,
) -> Result<Vec<u32>, NoMemory>
    requires rooms { AreThreadRooms script.now (length (threads_of script.now)) rooms.now.items }
    requires within { i < slice_count script.now.machine }
    ensures quotas { IfOk result (λ quotas. quotas.items ≡ slice_quotas script.now i) }
    ensures some { IfOk result (λ quotas. 0 < length quotas.items) }
    ensures few { IfOk result (λ quotas. sum quotas.items ≤ MOST_WEIGHT) }
{
    let mut quotas = Vec::new(alloc);
    for t in 0..script.threads() {
        quotas.push(rooms[t as usize][i] as u32)?;
    }
    quotas.push(0)?;
    Ok(quotas)
}
