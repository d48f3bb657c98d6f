//! Whether the touches of commands hit.
ghost use Rattle.std.specs.Prelude.{◌≡◌, ℕ, ◌+◌, ◌==◌, ◌&&◌, ◌<◌, ◌∷◌, [], false, length, map, IfOk, IfSome, MatchOption, None, Some, slice_index_or};
ghost use Rattle.std.specs.List.{list_any};
ghost use Rattle.cache_core.specs.Whats.{is_access, is_hit};
ghost use Rattle.run_counts.specs.Touches.{Notes, TellTouches, is_accepted_touch, is_access_by, is_at, is_touch_of, is_touch_in};
ghost use Rattle.run_law.specs.Entries.{entry_value};
ghost use Rattle.run_law.specs.Journals.{At};
ghost use Rattle.run_law.specs.Runs.{IsRun};
ghost use Rattle.run_law.specs.declared.journals.TreeEntry.{TreeEntry as Entry};
ghost use Rattle.run_law.specs.TreeHistory.{TreeEntryValue};

use crate::domains::slices_of;
use crate::refusals::is_refused;
use cache_core::{SliceEntry, What};
use rc_base::{NoMemory, Reply};
use run_law::{Journals, TreeEntry};
use script_ops::{Op, Script};
use std::alloc::Global;
use std::marker::Model;

/// For each command of a run, at its position in the tree's history, whether its touch hit; `None` where it made no access.
#[derive(Drop)]
pub struct Touches {
    hits: Vec<Option<bool>>,
}

impl Model for Touches {
    ghost use Rattle.std.specs.Prelude.{List, Option, Bool};

    ghost Value = { List (Option Bool) };

    ghost view = { λ t. t.hits.items };
}

impl Touches {
    /// The touches of a run, in one pass over the entries of its slices where a touch was accepted.
    pub fn of(alloc: Global, script: &Script, journals: &Journals) -> Result<Touches, NoMemory>
        requires run { IsRun script.now journals.now }
        ensures count { IfOk result (λ t. length t ≡ length journals.now.tree) }
        ensures told { IfOk result (λ t. TellTouches journals.now t) }
    {
        let tree = journals.tree();
        let mut hits = vec![in alloc; None; tree.len()]?;
        if !has_touch(script, tree) {
            return Ok(Touches { hits });
        }
        for i in 0..slices_of(script) {
            note_all(&mut hits, tree, journals.slice(i));
        }
        Ok(Touches { hits })
    }

    /// Whether the touch of the command at this position hit; `None` says that it made no access.
    pub fn hit(&self, k: usize) -> Option<bool>
        requires { k < length self.now }
        ensures { result ≡ slice_index_or self.now k None }
    {
        self.hits[k]
    }
}

/// Whether an op is a touch that was accepted.
pub fn is_accepted_touch(op: &Op, reply: Reply) -> bool
    ensures { result ≡ is_accepted_touch op.now reply }
{
    matches!((op, reply), (Op::Touch { .. }, Reply::Ok))
}

// Whether a command is a touch that was accepted.
fn is_touch(script: &Script, entry: &TreeEntry) -> bool
    ensures { result ≡ is_touch_in script.now (entry_value entry.now) }
{
    if is_refused(entry) {
        return false;
    }
    match script.op(entry.thread, entry.op) {
        Some(op) => is_accepted_touch(op.get(), entry.reply),
        None => false,
    }
}

// Whether one of these commands is a touch that was accepted.
fn has_touch(script: &Script, tree: &[TreeEntry]) -> bool
    ensures { result ≡ list_any (λ (e : Entry). is_touch_in script.now (entry_value e)) tree.now }
{
    tree.iter().any(|entry| is_touch(script, entry))
}

// Whether this is an access.
fn is_access(what: &What) -> bool
    ensures { result ≡ is_access what.now }
{
    matches!(what, What::Access { .. })
}

// Whether this is an access that hit.
fn is_hit(what: &What) -> bool
    ensures { result ≡ is_hit what.now }
{
    matches!(what, What::Access { hit: true, .. })
}

// Whether an entry is an access of this command.
fn is_access_by(command: &TreeEntry, entry: &SliceEntry) -> bool
    ensures { result ≡ is_access_by (entry_value command.now) entry.now }
{
    entry.thread == command.thread && entry.op == command.op && is_access(&entry.what)
}

// The position of the command after which the epoch is this one, where there are so many commands.
fn position_before(epoch: u64, commands: usize) -> Option<usize>
    ensures { MatchOption result ((k : ℕ) → k < commands → (epoch == k + 1) ≡ false) (λ at. (at < commands) × (epoch ≡ at + 1)) }
{
    if epoch == 0 || epoch > commands as u64 {
        return None;
    }
    Some((epoch - 1) as usize)
}

// The position of the command whose touch an entry is.
fn touched_by(tree: &[TreeEntry], entry: &SliceEntry) -> Option<usize>
    ensures within { IfSome result (λ at. at < length tree.now) }
    ensures command { (k : ℕ) (h : TreeEntryValue) → At (map entry_value tree.now) k h → is_touch_of k h entry.now ≡ is_at k result }
{
    let at = position_before(entry.epoch, tree.len())?;
    if is_access_by(&tree[at], entry) {
        Some(at)
    } else {
        None
    }
}

// Notes whether an entry hit, where it is the first touch of its command.
fn note(hits: &mut Vec<Option<bool>>, tree: &[TreeEntry], entry: &SliceEntry)
    requires { length hits.old.items ≡ length tree.now }
    ensures size { length hits.new.items ≡ length hits.old.items }
    ensures hits { Notes (map entry_value tree.now) hits.old.items hits.new.items (entry.now ∷ []) }
{
    if let Some(at) = touched_by(tree, entry) {
        hits[at] = hits[at].or(Some(is_hit(&entry.what)));
    }
}

/// Notes the touches among these entries.
pub(crate) fn note_all(hits: &mut Vec<Option<bool>>, tree: &[TreeEntry], entries: &[SliceEntry])
    requires { length hits.old.items ≡ length tree.now }
    ensures size { length hits.new.items ≡ length hits.old.items }
    ensures hits { Notes (map entry_value tree.now) hits.old.items hits.new.items entries.now }
{
    for entry in entries {
        note(hits, tree, entry);
    }
}
