//! Plays a script.
ghost use Rattle.std.specs.Prelude.{◌≡◌, IfOk, length};
ghost use Rattle.run_law.specs.Runs.{IsRun};
ghost use Rattle.step_world.specs.Play.{IsPlay, PlaysPhasesBy, orders_of};
ghost use Rattle.step_world.specs.Worlds.{IsWorldOf, machine_of};

use crate::world::World;
use rc_base::NoMemory;
use run_law::Journals;
use script_ops::Script;
use std::alloc::Global;

// Plays each phase by its order list.
fn play_phases(world: &mut World, script: &Script)
    requires world { IsWorldOf script.now world.old }
    requires first { world.old.phase ≡ 0 }
    ensures world { IsWorldOf script.now world.new }
    ensures phases { PlaysPhasesBy script.now (orders_of script.now.phases) (machine_of world.old) (machine_of world.new) }
    ensures over { world.new.phase ≡ length script.now.phases }
{
    for phase in 0..script.phases() {
        world.run_phase(script, script.order(phase));
    }
}

/// Plays a script: each phase by its order list, then the thread that holds the tree until it lets go, then each thread to its
/// end (this project's profile). The journals are a run of the script, and those of its play.
pub fn play(alloc: Global, script: &Script) -> Result<Journals, NoMemory>
    ensures run { IfOk result (λ journals. IsRun script.now journals) }
    ensures play { IfOk result (λ journals. IsPlay script.now journals) }
{
    let mut world = World::create(alloc, script)?;
    play_phases(&mut world, script);
    Ok(world.close())
}
