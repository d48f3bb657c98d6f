//! Trees that are taken through the history of a run.
ghost use Rattle.std.specs.Prelude.{◌≡◌, ℕ, ◌≤◌, OnOk, length};
ghost use Rattle.run_law.specs.Journals.{JournalsValue};
ghost use Rattle.run_replay.specs.Playbacks.{HasTaken, HasTakenBefore};
ghost use Rattle.script_ops.specs.Values.{ScriptValue};
ghost use Rattle.tree_core.specs.Values.{TreeValue};

use rc_base::NoMemory;
use run_law::Journals;
use script_ops::Script;
use tree_core::Tree;

/// A tree that is taken through the commands of a run once more, with what is noted of the commands on the way.
pub trait Playback {
    /// The tree as it is now.
    ghost played: { Self → TreeValue };

    /// What was noted so far is right for this run.
    ghost notes: { ScriptValue → JournalsValue → Self → Type 0 };

    /// The tree as it is now.
    fn tree(&self) -> &Tree
        ensures { result.now ≡ played self.now };

    /// Takes all commands before a position, from where the tree is.
    fn play_to(
        &mut self,
        script: &Script,
        journals: &Journals,
        position: usize,
    ) -> Result<(), NoMemory>
        requires taken { HasTakenBefore script.now journals.now.tree position (played self.old) }
        requires within { position ≤ length journals.now.tree }
        requires notes { notes script.now journals.now self.old }
        ensures taken { OnOk result (HasTaken script.now journals.now.tree (played self.new)) }
        ensures epoch { OnOk result ((played self.new).epoch ≡ position) }
        ensures notes { OnOk result (notes script.now journals.now self.new) };
}
