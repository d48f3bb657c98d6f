//! The journals before the first step.
ghost use Rattle.std.specs.Prelude.{◌≡◌, [], IfOk, length, vec_capacity};
ghost use Rattle.machine.specs.Slices.{slice_count};
ghost use Rattle.run_law.specs.Quotas.{AreCounted, command_count};
ghost use Rattle.script_ops.specs.Values.{threads_of};
ghost use Rattle.step_world.specs.Openings.{AreFresh};

use crate::fresh::fresh_slices;
use crate::slice::Slice;
use cache_core::SliceEntry;
use rc_base::NoMemory;
use run_law::{TreeEntry, command_room, slice_rooms};
use script_ops::Script;
use std::alloc::Global;

/// The tree's journal, the slices with theirs, and the list of the latter that is made when the world is closed: all empty, each
/// with its room.
#[derive(Drop)]
pub(crate) struct FreshJournals {
    pub(crate) commands: Vec<TreeEntry>,
    pub(crate) slices: Vec<Slice>,
    pub(crate) closing: Vec<Vec<SliceEntry>>,
}

/// The journals of a script. `counts` says how many commands each thread has. NoMemory where there is no room for them.
pub(crate) fn fresh_journals(
    alloc: Global,
    script: &Script,
    counts: &[u64],
) -> Result<FreshJournals, NoMemory>
    requires { AreCounted script.now (length (threads_of script.now)) counts.now }
    ensures commands { IfOk result (λ journals. journals.commands.items ≡ []) }
    ensures room { IfOk result (λ journals. vec_capacity journals.commands ≡ command_count script.now) }
    ensures slices { IfOk result (λ journals. AreFresh script.now (slice_count script.now.machine) journals.slices.items) }
    ensures closing { IfOk result (λ journals. journals.closing.items ≡ []) }
    ensures closing_room { IfOk result (λ journals. vec_capacity journals.closing ≡ length journals.slices.items) }
{
    let commands = Vec::with_capacity(alloc, command_room(script, counts) as usize)?;
    let rooms = slice_rooms(alloc, script, counts)?;
    let slices = fresh_slices(alloc, script, &rooms)?;
    let closing = Vec::with_capacity(alloc, slices.len())?;
    Ok(FreshJournals {
        commands,
        slices,
        closing,
    })
}
