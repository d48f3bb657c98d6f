//! The changes of the groups that are exclusive.
ghost use Rattle.std.specs.Prelude.{◌≡◌, ◌+◌, ◌≤◌, ◌∷◌, [], ◌++◌, IfOk, OnOk, length};
ghost use Rattle.run_law.specs.Entries.{entry_value};
ghost use Rattle.run_law.specs.Journals.{At};
ghost use Rattle.run_law.specs.Runs.{IsRun};
ghost use Rattle.run_replay.specs.Playbacks.{HasTaken, HasTakenBefore};
ghost use Rattle.run_windows.specs.Changes.{AreChanges, AreKeptBut, HasNoted, IsReplayed, changed_by, changed_gid, logged, removed_gid, written_gid};
ghost use Rattle.run_windows.specs.Edits.{changes_of};
ghost use Rattle.run_windows.specs.OneGroup.{AreInOrder, others};
ghost use Rattle.run_windows.specs.Stays.{exclusive_in};
ghost use Rattle.script_ops.specs.Values.{IsLawful, op_at};

use crate::edit::{Edit, edit_one};
use crate::exclusive_group::{ExclusiveGroup, exclusive_group};
use path_names::{FileKind, PathRef};
use rc_base::{Gid, NoMemory};
use run_law::TreeEntry;
use run_replay::{Replay, Run};
use script_ops::{Op, Script};
use std::alloc::Global;
use tree_core::Tree;

/// How the exclusive groups were before a change.
#[derive(Drop)]
pub(crate) struct Past {
    /// The first epoch at which they were so.
    pub from: u64,
    /// What makes them of those after the change.
    pub edit: Edit,
}

/// The changes so far.
#[derive(Drop)]
pub(crate) struct Log {
    /// What each change undoes, the first change first.
    pub pasts: Vec<Past>,
    /// The first epoch since the latest change.
    pub from: u64,
    /// The groups that are exclusive since then.
    pub latest: Vec<ExclusiveGroup>,
}

// The group whose mode or masks are written.
fn written_gid(tree: &Tree, path: PathRef) -> Option<Gid>
    ensures { result ≡ written_gid tree.now.state path }
{
    match path {
        PathRef::File(dir, FileKind::Schemata | FileKind::Mode) => tree.directory_gid(dir),
        _ => None,
    }
}

// The group whose directory is removed.
fn removed_gid(tree: &Tree, path: PathRef) -> Option<Gid>
    ensures { result ≡ removed_gid tree.now.state path }
{
    match path {
        PathRef::Dir(dir) => tree.directory_gid(dir),
        _ => None,
    }
}

// The group that a command may make exclusive, end to be so, or give other masks.
fn changed_gid(tree: &Tree, op: &Op) -> Option<Gid>
    ensures { result ≡ changed_gid tree.now.state op.now }
{
    match op {
        Op::Rmdir { path } => removed_gid(tree, *path),
        Op::Write { path, .. } => written_gid(tree, *path),
        _ => None,
    }
}

// The group that the command of an entry may change so.
fn changed_by(tree: &Tree, script: &Script, entry: &TreeEntry) -> Option<Gid>
    ensures { result ≡ changed_by tree.now.state (op_at script.now entry.now.thread entry.now.op) }
{
    match script.op(entry.thread, entry.op) {
        Some(op) => changed_gid(tree, op.get()),
        None => None,
    }
}

// Takes the next command of a run, and answers the one group that may now be exclusive or not, or on other masks.
fn take(replay: &mut Replay, run: &Run<'_>, position: usize, entry: &TreeEntry) -> Option<Gid>
    requires taken { HasTaken run.now.script.now run.now.journals.now.tree replay.old }
    requires next { replay.old.epoch ≡ position }
    requires entry { At run.now.journals.now.tree position (entry_value entry.now) }
    ensures taken { HasTaken run.now.script.now run.now.journals.now.tree replay.new }
    ensures epoch { replay.new.epoch ≡ position + 1 }
    ensures kept { AreKeptBut result replay.old.state replay.new.state }
{
    let gid = changed_by(replay.tree(), run.script, entry);
    replay.take_next(run.script, run.journals, position);
    gid
}

/// The log of a tree that has taken no command yet, in which no group is exclusive.
pub(crate) fn first_log(alloc: Global) -> Log
    ensures { (result.pasts.items ≡ []) × (result.from ≡ 0) × (result.latest.items ≡ []) }
{
    Log {
        pasts: Vec::new(alloc),
        from: 0,
        latest: Vec::new(alloc),
    }
}

// Adds what a command did to the one group that it may have changed, where it did.
fn push_changed(run: &Run<'_>, tree: &Tree, gid: Gid, log: &mut Log) -> Result<(), NoMemory>
    requires lawful { IsLawful run.now.script.now }
    requires run { IsRun run.now.script.now run.now.journals.now }
    requires replayed { IsReplayed run.now.script.now run.now.journals.now tree.now }
    requires changes { AreChanges run.now.script.now run.now.journals.now tree.now.epoch (logged log.old) }
    requires order { AreInOrder log.old.latest.items }
    requires others { others gid log.old.latest.items ≡ others gid (exclusive_in tree.now.state.groups) }
    ensures { OnOk result (AreChanges run.now.script.now run.now.journals.now (tree.now.epoch + 1) (logged log.new)) }
{
    match edit_one(&mut log.latest, gid, exclusive_group(tree, gid))? {
        Some(edit) => {
            log.pasts.push(Past {
                from: log.from,
                edit,
            })?;
            log.from = tree.epoch();
            Ok(())
        }
        None => Ok(()),
    }
}

// Takes the next command of a run, and adds what it did to the exclusive groups, where it changed one of them or its masks.
fn step(
    run: &Run<'_>,
    position: usize,
    entry: &TreeEntry,
    replay: &mut Replay,
    log: &mut Log,
) -> Result<(), NoMemory>
    requires lawful { IsLawful run.now.script.now }
    requires run { IsRun run.now.script.now run.now.journals.now }
    requires taken { HasTaken run.now.script.now run.now.journals.now.tree replay.old }
    requires next { replay.old.epoch ≡ position }
    requires entry { At run.now.journals.now.tree position (entry_value entry.now) }
    requires changes { AreChanges run.now.script.now run.now.journals.now (replay.old.epoch + 1) (logged log.old) }
    ensures taken { HasTaken run.now.script.now run.now.journals.now.tree replay.new }
    ensures epoch { replay.new.epoch ≡ position + 1 }
    ensures changes { OnOk result (AreChanges run.now.script.now run.now.journals.now (replay.new.epoch + 1) (logged log.new)) }
{
    match take(replay, run, position, entry) {
        Some(gid) => push_changed(run, replay.tree(), gid, log),
        None => Ok(()),
    }
}

/// Takes all commands before a position, from where the tree is, and adds what they did to the exclusive groups.
pub(crate) fn follow(
    run: &Run<'_>,
    replay: &mut Replay,
    log: &mut Log,
    position: usize,
) -> Result<(), NoMemory>
    requires taken { HasTakenBefore run.now.script.now run.now.journals.now.tree position replay.old }
    requires within { position ≤ length run.now.journals.now.tree }
    requires noted { HasNoted run.now.script.now run.now.journals.now replay.old log.old }
    ensures taken { OnOk result (HasTaken run.now.script.now run.now.journals.now.tree replay.new) }
    ensures epoch { OnOk result (replay.new.epoch ≡ position) }
    ensures noted { OnOk result (HasNoted run.now.script.now run.now.journals.now replay.new log.new) }
{
    let entries = run.journals.tree();
    let first = replay.tree().epoch() as usize;
    for next in first..position {
        step(run, next, &entries[next], replay, log)?;
    }
    Ok(())
}

/// All changes of a log, the last of which makes the latest groups of none.
pub(crate) fn closed(run: &Run<'_>, log: Log) -> Result<Vec<Past>, NoMemory>
    requires { AreChanges run.now.script.now run.now.journals.now (length run.now.journals.now.tree + 1) (logged log) }
    ensures { IfOk result (λ pasts. AreChanges run.now.script.now run.now.journals.now (length run.now.journals.now.tree + 1) (changes_of [] pasts.items)) }
{
    let Log {
        mut pasts,
        from,
        latest,
    } = log;
    pasts.push(Past {
        from,
        edit: Edit::Whole(latest),
    })?;
    Ok(pasts)
}
