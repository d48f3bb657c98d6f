//! Whether each command was given what its looks counted.
ghost use Rattle.std.specs.Prelude.{◌≡◌, ◌↔◌, IfOk, IsTrue, length};
ghost use Rattle.journal_check.specs.Places.{AreOwnPlaces, ArePlaces};
ghost use Rattle.journal_check.specs.FirstLooks.{AreAllFirstLooks};
ghost use Rattle.journal_check.specs.Tables.{IsTableOf};
ghost use Rattle.journal_check.specs.Traces.{IsTrace};
ghost use Rattle.machine.specs.Ranges.{InRange};
ghost use Rattle.machine.specs.Slices.{slice_count};
ghost use Rattle.run_law.specs.Looks.{AreMatched};
ghost use Rattle.run_law.specs.TreeHistory.{IsLegalTree};

use crate::OpTable;
use crate::first_looks::{are_counted, first_looks};
use crate::trace::Step;
use rc_base::NoMemory;
use run_law::Journals;
use script_ops::Script;
use std::alloc::Global;
use std::collections::BTreeMap;

// The first looks in every slice.
fn all_first_looks(
    alloc: Global,
    script: &Script,
    j: &Journals,
    places: &OpTable,
) -> Result<Vec<BTreeMap<u64, u64>>, NoMemory>
    requires all { length j.now.slices ≡ slice_count script.now.machine }
    requires own { AreOwnPlaces places.now }
    ensures { IfOk result (λ looks. AreAllFirstLooks places.now j.now (length j.now.slices) looks.items) }
{
    let mut all = Vec::new(alloc);
    for i in 0..script.machine().slice_count() {
        all.push(first_looks(alloc, places, j.slice(u32::from(i)))?)?;
    }
    Ok(all)
}

/// Whether each command was given what its looks counted: in the time of the entries, each with a search, and of the needs in each
/// slice. NoMemory where there is no room for the looks.
pub fn are_matched(
    alloc: Global,
    script: &Script,
    j: &Journals,
    steps: &[Step],
    places: &OpTable,
) -> Result<bool, NoMemory>
    requires all { length j.now.slices ≡ slice_count script.now.machine }
    requires range { InRange script.now.machine }
    requires legal { IsLegalTree script.now j.now.tree }
    requires trace { IsTrace script.now j.now.tree (length j.now.tree) steps.now }
    requires table { IsTableOf script.now places.now }
    requires places { ArePlaces script.now places.now j.now.tree }
    requires own { AreOwnPlaces places.now }
    ensures { IfOk result (λ yes. IsTrue yes ↔ AreMatched script.now j.now) }
{
    let looks = all_first_looks(alloc, script, j, places)?;
    let slices = script.machine().slices;
    let tree = j.tree();
    for k in 0..tree.len() {
        let needs = steps[k].needs.as_slice();
        let counts = tree[k].looks.items();
        if !are_counted(&looks, slices, k as u64 + 1, needs, counts) {
            return Ok(false);
        }
    }
    Ok(true)
}
