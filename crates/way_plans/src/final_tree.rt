//! The tree that a script leaves.
ghost use Rattle.std.specs.Prelude.{◌≡◌, IfOk};
ghost use Rattle.run_law.specs.Runs.{IsRun};
ghost use Rattle.run_law.specs.TreeHistory.{tree_after};
ghost use Rattle.tree_core.specs.Named.{AreNamed};

use rc_base::NoMemory;
use run_law::Journals;
use run_replay::Replay;
use script_ops::Script;
use std::alloc::Global;

/// The tree after all commands of a run. NoMemory where the allocator gives no room for it.
pub fn replay_all(alloc: Global, script: &Script, journals: &Journals) -> Result<Replay, NoMemory>
    requires { IsRun script.now journals.now }
    ensures machine { IfOk result (λ r. r.machine ≡ script.now.machine) }
    ensures state { IfOk result (λ r. r.state ≡ tree_after script.now journals.now.tree) }
    ensures named { IfOk result (λ r. AreNamed script.now.names r.state.groups) }
{
    let tree = journals.tree();
    let mut replay = Replay::create(alloc, script, journals)?;
    replay.reach(script, journals, tree.len());
    Ok(replay)
}
