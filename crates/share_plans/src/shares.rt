//! The report of what programs miss with ways of their own, and if they share.
ghost use Rattle.std.specs.Prelude.{◌≡◌, ◌≤◌, ◌++◌, ℕ, All, IfOk, List, OnOk, Some, length};
ghost use Rattle.share_plans.specs.Played.{Asked, HavePlayed};
ghost use Rattle.share_plans.specs.Reports.{IsShareReport, divided_text, share_text};
ghost use Rattle.share_plans.specs.Rows.{IsSmall, counts_in};
ghost use Rattle.share_plans.specs.declared.division_limits.TheConstants.{MOST_PROGRAMS, MOST_USES, MOST_WAYS, MOST_WEIGHT};
ghost use Rattle.share_plans.specs.declared.program.Program.{Program as Wish};
ghost use Rattle.share_plans.specs.declared.program_use.ProgramUse.{ProgramUse as Use};

use crate::demands::{push_demands, push_shared};
use crate::division::divide;
use crate::goal::Goal;
use crate::played::Played;
use crate::program::Program;
use crate::report::{push_curves, push_verdict};
use crate::scores::is_less;
use crate::shared_cache::SharedCache;
use crate::totals::{push_divided, push_misses, push_shared_lines, push_totals, score_of};
use num_text::GrowingText;
use rc_base::NoMemory;
use std::alloc::Global;

// Adds what all programs miss with these ways, and whether that is better than to share.
fn push_counted(
    alloc: Global,
    text: &mut GrowingText,
    cache: &SharedCache<'_>,
    counts: &[u8],
) -> Result<(), NoMemory>
    requires few { length cache.now.demands.now ≤ 32 }
    requires small { All IsSmall cache.now.demands.now }
    requires shared { All (λ n. n ≤ MOST_USES) cache.now.shared.now }
    ensures { OnOk result (text.new ≡ text.old ++ divided_text cache.now.goal cache.now.programs.now cache.now.demands.now cache.now.shared.now (Some counts.now)) }
{
    let mut misses = Vec::new(alloc);
    push_misses(&mut misses, cache.demands, counts)?;
    push_divided(text, cache.programs, counts, &misses)?;
    push_totals(text, cache.goal, b"divided", cache.demands, &misses)?;
    let divided = score_of(cache.goal, cache.demands, &misses);
    push_verdict(
        text,
        is_less(divided, score_of(cache.goal, cache.demands, cache.shared)),
    )
}

// Adds the same, or that there is no division.
fn push_division(
    alloc: Global,
    text: &mut GrowingText,
    cache: &SharedCache<'_>,
    counts: Option<Vec<u8>>,
) -> Result<(), NoMemory>
    requires few { length cache.now.demands.now ≤ 32 }
    requires small { All IsSmall cache.now.demands.now }
    requires shared { All (λ n. n ≤ MOST_USES) cache.now.shared.now }
    ensures { OnOk result (text.new ≡ text.old ++ divided_text cache.now.goal cache.now.programs.now cache.now.demands.now cache.now.shared.now (counts_in counts)) }
{
    match counts {
        Some(counts) => push_counted(alloc, text, cache, &counts),
        None => text.push(b"divided: the ways do not suffice\n"),
    }
}

// The report of what programs ask of a division, and of what they miss if they share.
fn report_of(
    alloc: Global,
    cache: &SharedCache<'_>,
    ways: u8,
    counts: Option<Vec<u8>>,
) -> Result<Vec<u8>, NoMemory>
    requires ways { ways ≤ 32 }
    requires few { length cache.now.demands.now ≤ 32 }
    requires small { All IsSmall cache.now.demands.now }
    requires count { length cache.now.shared.now ≤ 32 }
    requires shared { All (λ n. n ≤ MOST_USES) cache.now.shared.now }
    ensures { IfOk result (λ text. text.items ≡ share_text cache.now.goal ways cache.now.programs.now cache.now.demands.now cache.now.shared.now (counts_in counts)) }
{
    let mut text = GrowingText::create(alloc)?;
    push_curves(&mut text, ways, cache.programs, cache.demands)?;
    push_shared_lines(&mut text, cache.programs, cache.shared)?;
    push_totals(
        &mut text,
        cache.goal,
        b"shared",
        cache.demands,
        cache.shared,
    )?;
    push_division(alloc, &mut text, cache, counts)?;
    Ok(text.into_bytes())
}

/// The report of what was played of programs, for a cache of so many ways: the curve of each, what all miss if they share the ways, and
/// what they miss if those are divided as is best for the goal (this project's profile). NoMemory where the allocator gives no room.
pub fn share_report(
    alloc: Global,
    goal: Goal,
    ways: u8,
    programs: &[Program],
    played: &Played,
) -> Result<Vec<u8>, NoMemory>
    requires ways { ways ≤ MOST_WAYS }
    requires few { length programs.now ≤ MOST_PROGRAMS }
    requires weights { All (λ (p : Wish). p.weight ≤ MOST_WEIGHT) programs.now }
    requires uses { played.now.shared.uses ≤ MOST_USES }
    ensures { IfOk result (λ text. (sets : ℕ) (uses : List Use) → HavePlayed (record { programs = length programs.now; sets = sets; ways = ways }) played.now uses
        → IsShareReport goal sets ways programs.now uses text.items) }
{
    let mut demands = Vec::new(alloc);
    push_demands(&mut demands, programs, played.programs())?;
    let mut shared = Vec::new(alloc);
    push_shared(&mut shared, programs, played.programs())?;
    let counts = divide(alloc, goal, &demands, ways)?;
    let cache = SharedCache {
        goal,
        programs,
        demands: &demands,
        shared: &shared,
    };
    report_of(alloc, &cache, ways, counts)
}
