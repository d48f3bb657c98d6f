//! What all programs miss together.
ghost use Rattle.std.specs.Prelude.{◌≡◌, ◌+◌, ◌<◌, ◌≤◌, ◌^◌, ◌++◌, All, OnOk, codes, decimal, get_or, length, sum};
ghost use Rattle.share_plans.specs.Divisions.{misses_with as misses_in};
ghost use Rattle.share_plans.specs.Reports.{divided_lines, score_told, shared_lines_of, total_lines};
ghost use Rattle.share_plans.specs.Rows.{IsFit, IsSmall};
ghost use Rattle.share_plans.specs.Scores.{score_of as score_in};
ghost use Rattle.share_plans.specs.declared.division_limits.TheConstants.{MOST_USES};

use crate::demand::Demand;
use crate::goal::Goal;
use crate::program::Program;
use crate::score::Score;
use crate::scores::{joined, score_one};
use num_text::GrowingText;
use rc_base::NoMemory;

// What no program counts.
const NO_SCORE: Score = Score { part: 0, whole: 1 };

/// What these misses of these programs count together.
pub(crate) fn score_of(goal: Goal, demands: &[Demand], misses: &[u64]) -> Score
    requires few { length demands.now ≤ 32 }
    requires small { All IsSmall demands.now }
    requires misses { All (λ n. n ≤ MOST_USES) misses.now }
    ensures score { result ≡ score_in goal demands.now misses.now }
    ensures fit { IsFit goal (length demands.now) result }
{
    let [demand, demands @ ..] = demands else {
        return NO_SCORE;
    };
    let [own, misses @ ..] = misses else {
        return NO_SCORE;
    };
    let own = score_one(goal, demand, *own);
    joined(goal, own, score_of(goal, demands, misses))
}

// A sum of 64 bits.
fn sum_of(misses: &[u64]) -> u64
    requires { sum misses.now < 2 ^ 64 }
    ensures { result ≡ sum misses.now }
{
    misses.iter().sum()
}

// All misses together.
fn total_of(misses: &[u64]) -> u64
    requires count { length misses.now ≤ 32 }
    requires few { All (λ n. n ≤ MOST_USES) misses.now }
    ensures { result ≡ sum misses.now }
{
    sum_of(misses)
}

// Adds what a goal is reached by.
fn push_score(text: &mut GrowingText, goal: Goal, score: Score) -> Result<(), NoMemory>
    ensures { OnOk result (text.new ≡ text.old ++ score_told goal score) }
{
    match goal {
        Goal::Misses => {
            text.push(b": weighted misses ")?;
            text.push_decimal(score.part)?;
            text.push(b"\n")
        }
        Goal::Ratio => {
            text.push(b": worst ratio ")?;
            text.push_decimal(score.part)?;
            text.push(b" of ")?;
            text.push_decimal(score.whole)?;
            text.push(b"\n")
        }
    }
}

/// Adds the lines of what all programs miss together.
pub(crate) fn push_totals(
    text: &mut GrowingText,
    goal: Goal,
    what: &[u8],
    demands: &[Demand],
    misses: &[u64],
) -> Result<(), NoMemory>
    requires few { length demands.now ≤ 32 }
    requires small { All IsSmall demands.now }
    requires misses { All (λ n. n ≤ MOST_USES) misses.now }
    requires count { length misses.now ≤ 32 }
    ensures { OnOk result (text.new ≡ text.old ++ total_lines goal what.now demands.now misses.now) }
{
    text.push(what)?;
    text.push(b": misses ")?;
    text.push_decimal(total_of(misses))?;
    text.push(b"\n")?;
    text.push(what)?;
    push_score(text, goal, score_of(goal, demands, misses))
}

// The misses of a program with so many ways.
fn misses_of(demand: &Demand, count: u8) -> u64
    requires { IsSmall demand.now }
    ensures misses { result ≡ get_or demand.now.misses count 0 }
    ensures few { result ≤ MOST_USES }
{
    match demand.misses.get(count as usize) {
        Some(misses) => *misses,
        None => 0,
    }
}

/// Adds the misses of each program with its ways.
pub(crate) fn push_misses(
    misses: &mut Vec<u64>,
    demands: &[Demand],
    counts: &[u8],
) -> Result<(), NoMemory>
    requires small { All IsSmall demands.now }
    requires few { All (λ n. n ≤ MOST_USES) misses.old.items }
    ensures misses { OnOk result (misses.new.items ≡ misses.old.items ++ misses_in demands.now counts.now) }
    ensures few { OnOk result (All (λ n. n ≤ MOST_USES) misses.new.items) }
    ensures count { OnOk result (length misses.new.items ≤ length misses.old.items + length demands.now) }
{
    let [demand, demands @ ..] = demands else {
        return Ok(());
    };
    let [count, counts @ ..] = counts else {
        return Ok(());
    };
    misses.push(misses_of(demand, *count))?;
    push_misses(misses, demands, counts)
}

// Adds the line of a program's ways and misses.
fn push_divided_line(
    text: &mut GrowingText,
    name: &[u8],
    count: u8,
    misses: u64,
) -> Result<(), NoMemory>
    ensures { OnOk result (text.new ≡ text.old ++ (codes "divided " ++ name.now ++ (codes ": ways " ++ decimal count) ++ (codes " misses " ++ decimal misses ++ codes "\n"))) }
{
    text.push(b"divided ")?;
    text.push(name)?;
    text.push(b": ways ")?;
    text.push_decimal(u64::from(count))?;
    text.push(b" misses ")?;
    text.push_decimal(misses)?;
    text.push(b"\n")
}

/// Adds the line of each program's ways and misses.
pub(crate) fn push_divided(
    text: &mut GrowingText,
    programs: &[Program],
    counts: &[u8],
    misses: &[u64],
) -> Result<(), NoMemory>
    ensures { OnOk result (text.new ≡ text.old ++ divided_lines programs.now counts.now misses.now) }
{
    let [program, programs @ ..] = programs else {
        return Ok(());
    };
    let [count, counts @ ..] = counts else {
        return Ok(());
    };
    let [own, misses @ ..] = misses else {
        return Ok(());
    };
    push_divided_line(text, program.name.as_slice(), *count, *own)?;
    push_divided(text, programs, counts, misses)
}

// Adds the line of what a program misses in the cache that all share.
fn push_shared_line(text: &mut GrowingText, name: &[u8], misses: u64) -> Result<(), NoMemory>
    ensures { OnOk result (text.new ≡ text.old ++ (codes "shared " ++ name.now ++ (codes ": misses " ++ decimal misses ++ codes "\n"))) }
{
    text.push(b"shared ")?;
    text.push(name)?;
    text.push(b": misses ")?;
    text.push_decimal(misses)?;
    text.push(b"\n")
}

/// Adds the line of what each program misses in the cache that all share.
pub(crate) fn push_shared_lines(
    text: &mut GrowingText,
    programs: &[Program],
    misses: &[u64],
) -> Result<(), NoMemory>
    ensures { OnOk result (text.new ≡ text.old ++ shared_lines_of programs.now misses.now) }
{
    let [program, programs @ ..] = programs else {
        return Ok(());
    };
    let [own, misses @ ..] = misses else {
        return Ok(());
    };
    push_shared_line(text, program.name.as_slice(), *own)?;
    push_shared_lines(text, programs, misses)
}
