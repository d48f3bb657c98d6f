//! Slices that are judged part by part, and let go of.
ghost use Rattle.std.specs.Prelude.{◌≡◌, ◌<◌, ◌≤◌, ◌↔◌, ℕ, IfOk, IsTrue, List, None, Some, length, map};
ghost use Rattle.cache_core.specs.declared.entry.SliceEntry.{SliceEntry};
ghost use Rattle.check_parts.specs.CrowdedSlices.{HasMoreEntries};
ghost use Rattle.check_parts.specs.JudgedSlices.{AreJudged, AreLooks, IsJudged, IsSoFar, entries_at, found_so_far, journals_of, looks_in, looks_so_far};
ghost use Rattle.journal_check.specs.Verdicts.{HoldBefore, IsVerdict};
ghost use Rattle.journal_check.specs.declared.verdict.Clause.TheVariants.{LooksAreMatched};
ghost use Rattle.machine.specs.Slices.{slice_count};
ghost use Rattle.run_law.specs.Clauses.{CommandsStandOnce, TreeIsLegal};
ghost use Rattle.run_law.specs.Entries.{entries_of};
ghost use Rattle.run_law.specs.Looks.{AreMatched};

use crate::clause_order::{earlier_of, found_in};
use crate::look_lists::looks_in;
use crate::theorems::more_entries_fail;
use cache_core::SliceEntry;
use journal_check::trace::trace;
use journal_check::{Clause, Verdict, are_matched, are_taken_once, check, places_of};
use rc_base::NoMemory;
use run_law::Journals;
use run_law::theorems::runs_by_clauses;
use script_ops::Script;
use std::alloc::Global;

/// What is kept of the first slices of journals, which were judged and let go of.
#[derive(Drop)]
pub(crate) struct JudgedSlices {
    /// The first clause before that of the looks that is false of them.
    pub(crate) found: Option<Clause>,
    /// Where there is none, the first look of each op at each RMID in each of them.
    pub(crate) looks: Vec<Vec<SliceEntry>>,
}

// What was kept so far.
fn so_far(alloc: Global, judged: Option<JudgedSlices>) -> JudgedSlices
    ensures found { result.found ≡ found_so_far judged }
    ensures looks { looks_in result ≡ looks_so_far judged }
{
    match judged {
        Some(judged) => judged,
        None => JudgedSlices {
            found: None,
            looks: Vec::new(alloc),
        },
    }
}

// Adds the first looks of the slices that have none yet, up to a place.
fn with_looks(
    alloc: Global,
    script: &Script,
    looks: Vec<Vec<SliceEntry>>,
    left: &Journals,
    count: u8,
) -> Result<Vec<Vec<SliceEntry>>, NoMemory>
    requires { count ≤ length left.now.slices }
    ensures count { IfOk result (λ new. length new.items ≡ count) }
    ensures looks { IfOk result (λ new. (all : List (List SliceEntry)) (n : ℕ) → n ≤ count → AreLooks script.now all n (map entries_of looks.items)
        → ((i : ℕ) → n ≤ i → entries_at left.now.slices i ≡ entries_at all i) → AreLooks script.now all count (map entries_of new.items)) }
{
    let mut new = looks;
    new.truncate(usize::from(count));
    for i in new.len()..usize::from(count) {
        new.push(looks_in(alloc, script, left.slice(i as u32))?)?;
    }
    Ok(new)
}

// Whether each command was given what its looks counted, where each stands once and the tree's history is legal.
fn are_looks_matched(alloc: Global, script: &Script, j: &Journals) -> Result<bool, NoMemory>
    requires { length j.now.slices ≡ slice_count script.now.machine }
    ensures { IfOk result (λ yes. CommandsStandOnce script.now j.now → TreeIsLegal script.now j.now → (IsTrue yes ↔ AreMatched script.now j.now)) }
{
    // A script's machine is in its range.
    let _threads = script.threads();
    let tree = j.tree();
    let once = are_taken_once(alloc, script, tree)?;
    if !once {
        return Ok(false);
    }
    let Some(steps) = trace(alloc, script, tree)? else {
        return Ok(false);
    };
    let places = places_of(alloc, script, tree)?;
    let matched = are_matched(alloc, script, j, &steps, &places)?;
    Ok(matched)
}

// The verdict where all clauses before that of the looks hold, by the first looks of all slices.
fn verdict_by_looks(
    alloc: Global,
    script: &Script,
    left: Journals,
    looks: Vec<Vec<SliceEntry>>,
) -> Result<Verdict, NoMemory>
    requires { length looks.items ≡ slice_count script.now.machine }
    ensures { IfOk result (λ verdict. (all : List (List SliceEntry)) → length all ≡ slice_count script.now.machine → HasMoreEntries script.now all
        → HoldBefore script.now (journals_of left.tree all) LooksAreMatched → AreLooks script.now all (length all) (map entries_of looks.items)
        → IsVerdict script.now (journals_of left.tree all) verdict) }
{
    more_entries_fail();
    // A script that was read is lawful.
    let _threads = script.threads();
    let (tree, slices) = left.into_parts();
    drop(slices);
    let journals = Journals::of(tree, looks);
    let matched = are_looks_matched(alloc, script, &journals)?;
    if matched {
        Ok(Verdict::No {
            clause: Clause::EntriesStandOnce,
        })
    } else {
        Ok(Verdict::No {
            clause: Clause::LooksAreMatched,
        })
    }
}

impl JudgedSlices {
    /// Judges the slices up to a place by what is left of them: after that nothing of them has to be left. NoMemory where there is no
    /// room for what a check keeps of them, or for their first looks.
    pub(crate) fn judge(
        judged: Option<JudgedSlices>,
        alloc: Global,
        script: &Script,
        left: &Journals,
        count: u8,
    ) -> Result<JudgedSlices, NoMemory>
        requires all { length left.now.slices ≡ slice_count script.now.machine }
        requires within { count ≤ length left.now.slices }
        ensures count { IfOk result (λ new. new.found ≡ None → length new.looks.items ≡ count) }
        ensures judged { IfOk result (λ new. (all : List (List SliceEntry)) → length all ≡ count
            → IsSoFar script.now judged left.now.tree all left.now.slices → AreJudged script.now new left.now.tree all) }
    {
        runs_by_clauses();
        let JudgedSlices { found, looks } = so_far(alloc, judged);
        let verdict = check(alloc, script, left)?;
        match earlier_of(found, found_in(verdict)) {
            Some(clause) => Ok(JudgedSlices {
                found: Some(clause),
                looks: Vec::new(alloc),
            }),
            None => {
                let looks = with_looks(alloc, script, looks, left, count)?;
                Ok(JudgedSlices { found: None, looks })
            }
        }
    }

    /// The verdict on journals whose slices have together more entries than the script weighs, by what is left of them. NoMemory where
    /// there is no room for what a check keeps of them.
    pub(crate) fn verdict(
        self,
        alloc: Global,
        script: &Script,
        left: Journals,
    ) -> Result<Verdict, NoMemory>
        requires { length left.slices ≡ slice_count script.now.machine }
        ensures { IfOk result (λ verdict. (all : List (List SliceEntry)) → length all ≡ slice_count script.now.machine → HasMoreEntries script.now all
            → IsJudged script.now self left.tree all left.slices → IsVerdict script.now (journals_of left.tree all) verdict) }
    {
        let count = script.machine().slice_count();
        let JudgedSlices { found, looks } = JudgedSlices::judge(
            Some(self),
            alloc,
            script,
            &left,
            count,
        )?;
        match found {
            Some(clause) => Ok(Verdict::No { clause }),
            None => verdict_by_looks(alloc, script, left, looks),
        }
    }
}
