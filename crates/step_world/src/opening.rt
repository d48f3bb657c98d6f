//! A world before its first step.
ghost use Rattle.std.specs.Prelude.{IfOk};
ghost use Rattle.step_world.specs.Schedules.{IsOpening};
ghost use Rattle.step_world.specs.Openings.{HasRooms};
ghost use Rattle.step_world.specs.Worlds.{IsWorldOf, machine_of};

use crate::fresh::{first_threads, fresh_lists};
use crate::fresh_journals::{FreshJournals, fresh_journals};
use crate::work::Work;
use crate::world::World;
use rc_base::NoMemory;
use run_law::command_counts;
use script_ops::Script;
use std::alloc::Global;
use tree_core::Tree;

impl World {
    /// The world of a script before the first step: the opening tree, empty caches, and each thread before its first op. It has
    /// room for all that the script can make, so that no step takes memory (this project's profile).
    pub fn create(alloc: Global, script: &Script) -> Result<World, NoMemory>
        ensures world { IfOk result (λ w. IsWorldOf script.now w) }
        ensures opening { IfOk result (λ w. IsOpening script.now (machine_of w)) }
        ensures rooms { IfOk result (λ w. HasRooms script.now w) }
    {
        let tree = Tree::create(alloc, script.machine(), script.tasks())?;
        let counts = command_counts(alloc, script)?;
        let threads = first_threads(alloc, script)?;
        let lists = fresh_lists(alloc, script, &counts)?;
        let FreshJournals {
            commands,
            slices,
            closing,
        } = fresh_journals(alloc, script, &counts)?;
        Ok(World {
            tree,
            commands,
            slices,
            threads,
            lists,
            phase: 0,
            holder: None,
            work: Work::none(),
            closing,
        })
    }
}
