//! A keeper of journals that lets go of slices, where they have together more entries than those of a run.
ghost use Rattle.std.specs.Prelude.{◌≡◌, ◌≤◌, ℕ, IfOk, IsTrue, length, map};
ghost use Rattle.check_parts.specs.CrowdedSlices.{HasMoreEntries};
ghost use Rattle.check_parts.specs.JudgedSlices.{entries_at};
ghost use Rattle.check_parts.specs.LeftJournals.{KeepsLeft, kept_in};
ghost use Rattle.journal_check.specs.Verdicts.{IsVerdict};
ghost use Rattle.journal_text.specs.States.{PartsRead, journals_in, nothing_read};
ghost use Rattle.machine.specs.Slices.{slice_count};
ghost use Rattle.run_law.specs.Entries.{entries_of};
ghost use Rattle.script_ops.specs.Values.{ScriptValue, total_weight};

use crate::judged_slices::JudgedSlices;
use cache_core::SliceEntry;
use journal_check::{Verdict, check};
use journal_text::{Keeper, WeighedScript};
use rc_base::NoMemory;
use run_law::{Journals, TreeEntry};
use script_ops::Script;
use std::alloc::Global;
use std::mem;

/// The commands of journals, what is left of the slices, and the entries of the slice that is being read. All is left until the slices
/// have more entries than the script weighs. Then they are judged and let go of, and so each time that as many are left again.
#[derive(Drop)]
pub(crate) struct LeftJournals {
    pub(crate) tree: Vec<TreeEntry>,
    pub(crate) slices: Vec<Vec<SliceEntry>>,
    pub(crate) entries: Vec<SliceEntry>,
    pub(crate) judged: Option<JudgedSlices>,
}

// Whether these slices have together more entries than the script weighs.
fn have_more_entries(weighed: &WeighedScript<'_>, slices: &[Vec<SliceEntry>]) -> bool
    requires weight { weighed.now.weight ≡ total_weight weighed.now.script.now }
    ensures { IsTrue result → HasMoreEntries weighed.now.script.now (map entries_of slices.now) }
{
    let mut entries: u64 = 0;
    for i in 0..slices.len() {
        entries = entries.saturating_add(slices[i].len() as u64);
    }
    weighed.weight < entries
}

// As many slices, of which those that are added have no entries.
fn padded(
    alloc: Global,
    slices: Vec<Vec<SliceEntry>>,
    count: usize,
) -> Result<Vec<Vec<SliceEntry>>, NoMemory>
    ensures count { IfOk result (λ new. length slices.items ≤ count → length new.items ≡ count) }
    ensures same { IfOk result (λ new. (i : ℕ) → entries_at (map entries_of new.items) i ≡ entries_at (map entries_of slices.items) i) }
{
    let mut new = slices;
    for _ in new.len()..count {
        new.push(Vec::new(alloc))?;
    }
    Ok(new)
}

// Judges the slices that are left, of which there are no more than the machine has, and lets go of them.
fn judge(alloc: Global, script: &Script, left: LeftJournals) -> Result<LeftJournals, NoMemory>
    requires { length left.slices.items ≤ slice_count script.now.machine }
    ensures { IfOk result (λ new. (parts : PartsRead) → KeepsLeft left script.now parts → HasMoreEntries script.now parts.slices → KeepsLeft new script.now parts) }
{
    let LeftJournals {
        tree,
        slices,
        entries,
        judged,
    } = left;
    let count = slices.len();
    let all = padded(alloc, slices, usize::from(script.machine().slice_count()))?;
    let journals = Journals::of(tree, all);
    let now = JudgedSlices::judge(judged, alloc, script, &journals, count as u8)?;
    let (tree, gone) = journals.into_parts();
    drop(gone);
    let slices = padded(alloc, Vec::new(alloc), count)?;
    Ok(LeftJournals {
        tree,
        slices,
        entries,
        judged: Some(now),
    })
}

// Judges the slices that are left, where these have more entries than the script weighs. No text has more slices than the machine.
fn judge_many(
    alloc: Global,
    weighed: &WeighedScript<'_>,
    left: LeftJournals,
) -> Result<LeftJournals, NoMemory>
    requires weight { weighed.now.weight ≡ total_weight weighed.now.script.now }
    ensures { let script = weighed.now.script.now in IfOk result (λ new. (parts : PartsRead) → KeepsLeft left script parts → KeepsLeft new script parts) }
{
    if !have_more_entries(weighed, &left.slices) {
        return Ok(left);
    }
    if left.slices.len() <= usize::from(weighed.script.machine().slice_count()) {
        judge(alloc, weighed.script, left)
    } else {
        Ok(left)
    }
}

impl LeftJournals {
    /// Nothing was read. It takes no memory.
    pub(crate) fn create(alloc: Global) -> LeftJournals
        ensures { (script : ScriptValue) → KeepsLeft result script nothing_read }
    {
        LeftJournals {
            tree: Vec::new(alloc),
            slices: Vec::new(alloc),
            entries: Vec::new(alloc),
            judged: None,
        }
    }

    /// The verdict on the journals, where the text is over. NoMemory where there is no room for what a check keeps of them.
    pub(crate) fn verdict(self, alloc: Global, script: &Script) -> Result<Verdict, NoMemory>
        requires { length (kept_in self).slices ≡ slice_count script.now.machine }
        ensures { IfOk result (λ verdict. (parts : PartsRead) → KeepsLeft self script.now parts → IsVerdict script.now (journals_in parts) verdict) }
    {
        let LeftJournals {
            tree,
            slices,
            entries,
            judged,
        } = self;
        drop(entries);
        let journals = Journals::of(tree, slices);
        match judged {
            Some(judged) => judged.verdict(alloc, script, journals),
            None => check(alloc, script, &journals),
        }
    }
}

impl Keeper for LeftJournals {
    ghost keeps = { λ left script parts. KeepsLeft left script parts };

    fn add_command(&mut self, _script: &Script, entry: TreeEntry) -> Result<(), NoMemory> {
        self.tree.push(entry)?;
        Ok(())
    }

    fn add_entry(&mut self, _script: &Script, entry: SliceEntry) -> Result<(), NoMemory> {
        self.entries.push(entry)?;
        Ok(())
    }

    fn end_slice(&mut self, alloc: Global, weighed: &WeighedScript<'_>) -> Result<(), NoMemory> {
        let entries = mem::replace(&mut self.entries, Vec::new(alloc));
        self.slices.push(entries)?;
        let left = mem::replace(self, LeftJournals::create(alloc));
        *self = judge_many(alloc, weighed, left)?;
        Ok(())
    }
}
