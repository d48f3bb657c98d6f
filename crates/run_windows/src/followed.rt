//! Trees that are taken through the history of a run, with the changes of the exclusive groups.
ghost use Rattle.std.specs.Prelude.{◌≡◌, ◌+◌, [], IfOk, length};
ghost use Rattle.run_law.specs.Runs.{IsRun};
ghost use Rattle.run_replay.specs.Playbacks.{HasTakenBefore};
ghost use Rattle.run_windows.specs.Changes.{AreChanges};
ghost use Rattle.run_windows.specs.Edits.{changes_of};
ghost use Rattle.run_windows.specs.Followed.{HasFollowed, followed_tree};
ghost use Rattle.script_ops.specs.Values.{IsLawful};

use crate::changes::{Log, Past, closed, first_log, follow};
use rc_base::NoMemory;
use run_law::Journals;
use run_replay::{Playback, Replay, Run};
use script_ops::Script;
use std::alloc::Global;
use tree_core::Tree;

/// The tree of a run, as it was before a command, with what the commands before it did to the exclusive groups. Each command that
/// changed an exclusive group or a mask of one costs the record of that group, some 60 bytes.
#[derive(Drop)]
pub struct FollowedReplay {
    replay: Replay,
    log: Log,
}

impl FollowedReplay {
    /// The opening tree of a run, in which no group is exclusive.
    pub fn create(
        alloc: Global,
        script: &Script,
        journals: &Journals,
    ) -> Result<FollowedReplay, NoMemory>
        requires lawful { IsLawful script.now }
        requires run { IsRun script.now journals.now }
        ensures taken { IfOk result (λ f. HasTakenBefore script.now journals.now.tree 0 (followed_tree f)) }
        ensures noted { IfOk result (λ f. HasFollowed script.now journals.now f) }
    {
        let replay = Replay::create(alloc, script, journals)?;
        let log = first_log(alloc);
        Ok(FollowedReplay { replay, log })
    }
}

impl Playback for FollowedReplay {
    ghost played = { λ f. followed_tree f };

    ghost notes = { λ script j f. HasFollowed script j f };

    fn tree(&self) -> &Tree {
        self.replay.tree()
    }

    fn play_to(
        &mut self,
        script: &Script,
        journals: &Journals,
        position: usize,
    ) -> Result<(), NoMemory> {
        let run = Run { script, journals };
        follow(&run, &mut self.replay, &mut self.log, position)
    }
}

/// What makes the groups that are exclusive at first, and after each command that changes them or a mask of theirs, of those of
/// the next change, and the last of none. The tree is taken through the rest of its history for it.
pub(crate) fn changes_after(run: &Run<'_>, followed: FollowedReplay) -> Result<Vec<Past>, NoMemory>
    requires taken { HasTakenBefore run.now.script.now run.now.journals.now.tree (length run.now.journals.now.tree) (followed_tree followed) }
    requires noted { HasFollowed run.now.script.now run.now.journals.now followed }
    ensures { IfOk result (λ pasts. AreChanges run.now.script.now run.now.journals.now (length run.now.journals.now.tree + 1) (changes_of [] pasts.items)) }
{
    let FollowedReplay {
        mut replay,
        mut log,
    } = followed;
    let tree = run.journals.tree();
    follow(run, &mut replay, &mut log, tree.len())?;
    closed(run, log)
}
