//! A keeper of journals that keeps no more of the tree's history than a run of the script has.
ghost use Rattle.std.specs.Prelude.{◌≡◌, IfOk, OnOk};
ghost use Rattle.check_parts.specs.Judging.{HasSlices, KeepsCommand, KeepsExpected, KeepsToo};
ghost use Rattle.journal_check.specs.Tables.{IsTableOf};
ghost use Rattle.journal_check.specs.Verdicts.{IsVerdict};
ghost use Rattle.journal_text.specs.States.{PartsRead, journals_in, nothing_read, with_command, with_entry, with_slice};
ghost use Rattle.run_law.specs.Entries.{entry_value};
ghost use Rattle.script_ops.specs.Values.{total_weight};

use crate::left_journals::LeftJournals;
use cache_core::SliceEntry;
use journal_check::{CommandCounts, Verdict};
use journal_text::{Keeper, WeighedScript};
use rc_base::NoMemory;
use run_law::TreeEntry;
use script_ops::Script;
use std::alloc::Global;

/// The journals that are read for a script. What is left of them is kept until a command comes that no run of the script goes on with.
/// From then on the commands are counted and nothing is kept, for how often they stand decides the verdict.
#[derive(Drop)]
pub(crate) struct ExpectedJournals {
    pub(crate) counts: CommandCounts,
    pub(crate) left: Option<LeftJournals>,
}

// Keeps a command, where all is kept.
fn keep_command(
    left: &mut Option<LeftJournals>,
    script: &Script,
    entry: TreeEntry,
) -> Result<(), NoMemory>
    ensures { OnOk result (KeepsCommand script.now left.old left.new (entry_value entry)) }
{
    match left {
        Some(journals) => journals.add_command(script, entry),
        None => Ok(()),
    }
}

// Keeps an entry of the slice that is being read, where all is kept.
fn keep_entry(
    left: &mut Option<LeftJournals>,
    script: &Script,
    entry: SliceEntry,
) -> Result<(), NoMemory>
    ensures { OnOk result (KeepsToo script.now left.old left.new (λ parts. with_entry parts entry)) }
{
    match left {
        Some(journals) => journals.add_entry(script, entry),
        None => Ok(()),
    }
}

// Ends the slice that is being read, where all is kept.
fn end_kept(
    alloc: Global,
    left: &mut Option<LeftJournals>,
    weighed: &WeighedScript<'_>,
) -> Result<(), NoMemory>
    requires weight { weighed.now.weight ≡ total_weight weighed.now.script.now }
    ensures { OnOk result (KeepsToo weighed.now.script.now left.old left.new with_slice) }
{
    match left {
        Some(journals) => journals.end_slice(alloc, weighed),
        None => Ok(()),
    }
}

impl ExpectedJournals {
    /// Nothing was read. NoMemory where there is no room for a number for each op.
    pub(crate) fn create(alloc: Global, script: &Script) -> Result<ExpectedJournals, NoMemory>
        ensures { IfOk result (λ kept. KeepsExpected kept script.now nothing_read) }
    {
        Ok(ExpectedJournals {
            counts: CommandCounts::create(alloc, script)?,
            left: Some(LeftJournals::create(alloc)),
        })
    }

    /// The verdict on the journals, where the text is over. NoMemory where there is no room for what a check keeps of them.
    pub(crate) fn verdict(self, alloc: Global, script: &Script) -> Result<Verdict, NoMemory>
        requires table { IsTableOf script.now self.counts }
        requires slices { HasSlices script.now self.left }
        ensures { IfOk result (λ verdict. (parts : PartsRead) → KeepsExpected self script.now parts → IsVerdict script.now (journals_in parts) verdict) }
    {
        let ExpectedJournals { counts, left } = self;
        match left {
            Some(left) => {
                drop(counts);
                left.verdict(alloc, script)
            }
            None => Ok(counts.verdict(script)),
        }
    }
}

impl Keeper for ExpectedJournals {
    ghost keeps = { λ kept script parts. KeepsExpected kept script parts };

    fn add_command(&mut self, script: &Script, entry: TreeEntry) -> Result<(), NoMemory> {
        let expected = self.counts.expects(script, &entry);
        self.counts.add(&entry);
        if expected {
            keep_command(&mut self.left, script, entry)
        } else {
            self.left = None;
            Ok(())
        }
    }

    fn add_entry(&mut self, script: &Script, entry: SliceEntry) -> Result<(), NoMemory> {
        keep_entry(&mut self.left, script, entry)
    }

    fn end_slice(&mut self, alloc: Global, weighed: &WeighedScript<'_>) -> Result<(), NoMemory> {
        end_kept(alloc, &mut self.left, weighed)
    }
}
