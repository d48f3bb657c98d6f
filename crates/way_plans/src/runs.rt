//! Runs of free ways.
ghost use Rattle.std.specs.Prelude.{◌≡◌, ◌+◌, ◌≤◌, ◌<◌, IfOk, OnOk, All, length};
ghost use Rattle.way_plans.specs.Divisions.{end};
ghost use Rattle.way_plans.specs.Runs.{runs_of, states_of as states_in, with_way};
ghost use Rattle.way_plans.specs.declared.division_limits.TheConstants.{MOST_STATES};

use crate::division_limits::MOST_STATES;
use crate::span::Span;
use rc_base::NoMemory;
use std::alloc::Global;

// Adds a free way behind the runs.
fn add_way(runs: &mut Vec<Span>, way: u8) -> Result<(), NoMemory>
    requires way { way < 32 }
    requires within { All (λ run. end run ≤ way) runs.old.items }
    ensures runs { OnOk result (runs.new.items ≡ with_way way runs.old.items) }
{
    if !runs.is_empty() && runs[0].first + runs[0].count == way {
        runs[0].count += 1;
        return Ok(());
    }
    runs.insert(
        0,
        Span {
            first: way,
            count: 1,
        },
    )?;
    Ok(())
}

/// The runs of free ways, the highest first.
pub(crate) fn runs_of(alloc: Global, free: &[bool]) -> Result<Vec<Span>, NoMemory>
    requires { length free.now ≤ 32 }
    ensures runs { IfOk result (λ runs. runs.items ≡ runs_of free.now) }
    ensures within { IfOk result (λ runs. All (λ run. end run ≤ 32) runs.items) }
{
    let mut runs: Vec<Span> = Vec::new(alloc);
    for way in 0..free.len() {
        if free[way] {
            add_way(&mut runs, way as u8)?;
        }
    }
    Ok(runs)
}

/// In how many states the runs can be, or `MOST_STATES` and one where there are more than the most.
pub(crate) fn states_of(runs: &[Span]) -> usize
    requires { All (λ run. end run ≤ 32) runs.now }
    ensures few { states_in runs.now ≤ MOST_STATES → result ≡ states_in runs.now }
    ensures many { MOST_STATES < states_in runs.now → MOST_STATES < result }
    ensures bound { result ≤ MOST_STATES + 1 }
{
    let [run, later @ ..] = runs else {
        return 1;
    };
    let states = (run.count as usize + 1) * states_of(later);
    states.min(MOST_STATES + 1)
}
