//! Whether a list of entries is a legal history of a slice.
ghost use Rattle.std.specs.Prelude.{◌<◌, ◌↔◌, IfOk, IsTrue};
ghost use Rattle.cache_core.specs.History.{IsLegal, shape_of};
ghost use Rattle.machine.specs.Maps.{parameters_of};

use crate::replay::Replay;
use cache_core::SliceEntry;
use machine::Machine;
use rc_base::NoMemory;
use std::alloc::Global;

/// Whether a list of entries is a legal history of this slice of a domain of a machine, in the time of the entries, each with a walk
/// through the ways of a set. NoMemory where there is no room for the places of a domain.
pub fn is_legal(
    alloc: Global,
    m: &Machine,
    slice: u8,
    entries: &[SliceEntry],
) -> Result<bool, NoMemory>
    requires { slice < m.now.slices }
    ensures { IfOk result (λ holds. IsTrue holds ↔ IsLegal (shape_of (parameters_of m.now) slice) entries.now) }
{
    let mut replay = Replay::create(alloc, m, slice)?;
    for k in 0..entries.len() {
        let before = &entries[..k];
        let entry = entries[k];
        if !replay.may_happen(before, entry.epoch, entry.what) {
            return Ok(false);
        }
        replay.add(before, entry);
    }
    Ok(true)
}
