//! Whether the history of each slice is legal.
ghost use Rattle.std.specs.Prelude.{◌≡◌, ◌%◌, ◌<◌, ◌↔◌, IfOk, IsTrue, length};
ghost use Rattle.cache_core.specs.History.{IsLegal};
ghost use Rattle.machine.specs.Slices.{slice_count};
ghost use Rattle.run_law.specs.Clauses.{SlicesAreLegal};
ghost use Rattle.run_law.specs.Journals.{slice_at};
ghost use Rattle.run_law.specs.Slices.{shape_in};

use crate::is_legal;
use rc_base::NoMemory;
use run_law::Journals;
use script_ops::Script;
use std::alloc::Global;

// Whether the history of slice i is legal.
fn is_slice_legal(alloc: Global, script: &Script, j: &Journals, i: u8) -> Result<bool, NoMemory>
    requires slice { i < length j.now.slices }
    ensures { IfOk result (λ holds. IsTrue holds ↔ IsLegal (shape_in script.now.machine i) (slice_at j.now i)) }
{
    let m = script.machine();
    let slice = i % m.slices;
    is_legal(alloc, m, slice, j.slice(u32::from(i)))
}

/// Whether the history of each slice is legal, each by a replay of its own, in the time of the entries, each with a walk through the
/// ways of a set. NoMemory where there is no room for the places of a domain.
pub fn are_slices_legal(alloc: Global, script: &Script, j: &Journals) -> Result<bool, NoMemory>
    requires { length j.now.slices ≡ slice_count script.now.machine }
    ensures { IfOk result (λ holds. IsTrue holds ↔ SlicesAreLegal script.now j.now) }
{
    for i in 0..script.machine().slice_count() {
        let holds = is_slice_legal(alloc, script, j, i)?;
        if !holds {
            return Ok(false);
        }
    }
    Ok(true)
}
