//! The value of all accesses and commands.
ghost use Rattle.std.specs.Prelude.{◌≡◌, ◌++◌, ◌∷◌, [], IfOk, OnOk, codes, count_by, length, map, true};
ghost use Rattle.json_report.specs.Pieces.{members_told};
ghost use Rattle.json_report.specs.Totals.{total_of_counts, total_value};
ghost use Rattle.machine.specs.Slices.{slice_count};
ghost use Rattle.run_counts.specs.Refusals.{is_refusal};
ghost use Rattle.run_counts.specs.Tallies.{IsTallyOf};
ghost use Rattle.run_law.specs.Entries.{entry_value};
ghost use Rattle.run_law.specs.TreeHistory.{TreeEntryValue};
ghost use Rattle.serde_json.specs.View.{view};
ghost use Rattle.serde_json.specs.Written.{compact_text};

use crate::members::{push_key, push_value};
use num_text::GrowingText;
use rc_base::NoMemory;
use run_counts::{Counts, Tally, count_refused};
use run_law::{Journals, TreeEntry};
use script_ops::Script;
use serde_json::{Value, json};
use std::alloc::{AllocError, Global};

// The value of these counts.
#[tactic(auto, unfolding(crate::specs::Totals::total_of_counts))]
fn value_of(alloc: Global, commands: u64, refused: u64, counts: Counts) -> Result<Value, AllocError>
    ensures { IfOk result (λ v. view v ≡ total_of_counts commands refused counts) }
{
    json!(in alloc; {
        "accesses": counts.accesses,
        "commands": commands,
        "hits": counts.hits,
        "misses": counts.misses,
        "refused": refused
    })
}

// Adds the value of the counts of these commands and of accesses.
fn push_counts(
    alloc: Global,
    report: &mut GrowingText,
    tree: &[TreeEntry],
    counts: Counts,
) -> Result<(), NoMemory>
    ensures { OnOk result (report.new ≡ report.old ++ compact_text (total_of_counts (length tree.now) (count_by (λ (h : TreeEntryValue). is_refusal h.reply) (map entry_value tree.now)) counts)) }
{
    let value = value_of(alloc, tree.len() as u64, count_refused(tree), counts)?;
    push_value(alloc, report, &value)
}

/// Adds the total: all accesses as they were tallied, and all commands.
pub fn push_total(
    alloc: Global,
    report: &mut GrowingText,
    script: &Script,
    journals: &Journals,
    tally: &Tally,
) -> Result<(), NoMemory>
    requires { IsTallyOf journals.now (slice_count script.now.machine) tally.now }
    ensures { OnOk result (report.new ≡ report.old ++ members_told true ((codes "total", total_value script.now journals.now) ∷ [])) }
{
    push_key(report, true, "total")?;
    push_counts(alloc, report, journals.tree(), tally.all())
}
