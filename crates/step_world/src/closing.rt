//! The journals of a world.
ghost use Rattle.std.specs.Prelude.{◌≡◌, ◌≤◌, List, map, length, [], vec_capacity};
ghost use Rattle.run_law.specs.Entries.{entries_of};
ghost use Rattle.run_law.specs.Runs.{IsRun};
ghost use Rattle.script_ops.specs.Values.{ScriptValue};
ghost use Rattle.step_world.specs.Schedules.{IsOver};
ghost use Rattle.step_world.specs.Slices.{SliceValue};
ghost use Rattle.step_world.specs.Worlds.{CanClose, IsWorldOf, machine_of};

use crate::slice::Slice;
use crate::world::World;
use cache_core::SliceEntry;
use run_law::Journals;

// Adds the entries of each slice to a list that has the room.
fn take_entries(slices: Vec<Slice>, into: Vec<Vec<SliceEntry>>) -> Vec<Vec<SliceEntry>>
    requires empty { into.items ≡ [] }
    requires room { length slices.items ≤ vec_capacity into }
    ensures { map entries_of result.items ≡ map (λ (s : SliceValue). s.entries) slices.items }
{
    let mut all = into;
    for slice in slices {
        all.push_reserved(slice.into_entries());
    }
    all
}

impl World {
    /// The journals of what was played. It takes no memory. Where the world is one of a script and all its phases were run, they
    /// are a run of the script.
    pub fn close(self) -> Journals
        requires { CanClose self }
        ensures journals { result ≡ (machine_of self).journals }
        ensures run { (script : ScriptValue) → IsWorldOf script self → IsOver script (machine_of self) → IsRun script result }
    {
        Journals::of(self.commands, take_entries(self.slices, self.closing))
    }
}
