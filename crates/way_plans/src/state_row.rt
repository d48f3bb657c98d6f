//! A row of the table of all orders.
ghost use Rattle.std.specs.Prelude.{◌≡◌, ℕ, ◌*◌, ◌^◌, ◌<◌, ◌≤◌, All, IfOk, IfSome, Some, length, replicate};
ghost use Rattle.way_plans.specs.Divisions.{end};
ghost use Rattle.way_plans.specs.Placings.{IsStateRow, at, done};
ghost use Rattle.way_plans.specs.Runs.{states_of};
ghost use Rattle.way_plans.specs.declared.division_limits.TheConstants.{MOST_STATES};

use crate::placed::Placed;
use crate::placing::{GroupInState, best_among};
use crate::span::Span;
use rc_base::NoMemory;
use std::alloc::Global;
use std::marker::Model;

/// What is best for the groups from one on, in each state of the runs.
#[derive(Drop)]
pub(crate) struct StateRow {
    pub(crate) places: Vec<Option<Placed>>,
}

impl Model for StateRow {
    ghost use Rattle.std.specs.Prelude.{List, Option};
    ghost use Rattle.way_plans.specs.declared.placed.Placed.{Placed};

    ghost Value = { List (Option Placed) };

    ghost view = { λ row. row.places.items };
}

impl StateRow {
    /// What is best in a state, if it is one of the row and the groups have ways then.
    pub(crate) fn best(&self, state: usize) -> Option<Placed>
        ensures { result ≡ at self.now state }
    {
        match self.places.get(state) {
            Some(best) => *best,
            None => None,
        }
    }

    /// How many states the row has.
    pub(crate) fn states(&self) -> usize
        ensures { result ≡ length self.now }
    {
        self.places.len()
    }
}

// No group has no misses.
const DONE: Placed = Placed {
    span: Span { first: 0, count: 0 },
    misses: 0,
    rest: 0,
};

/// The row of no group, for so many states.
pub(crate) fn last_row(alloc: Global, states: usize) -> Result<StateRow, NoMemory>
    ensures { IfOk result (λ row. row ≡ replicate states (Some done)) }
{
    let places = vec![in alloc; Some(DONE); states]?;
    Ok(StateRow { places })
}

/// The row of a group, by the row of those after it.
pub(crate) fn row_of(
    alloc: Global,
    least: u8,
    group: &[u64],
    next: &StateRow,
    runs: &[Span],
) -> Result<StateRow, NoMemory>
    requires runs { All (λ run. end run ≤ 32) runs.now }
    requires few { states_of runs.now ≤ MOST_STATES }
    requires own { All (λ n. n ≤ 2 ^ 48) group.now }
    requires next { (state : ℕ) → IfSome (at next.now state) (λ placed. placed.misses ≤ 2 ^ 60) }
    requires count { length group.now ≡ 33 }
    requires states { length next.now ≡ states_of runs.now }
    ensures { IfOk result (IsStateRow least runs.now group.now next.now) }
{
    let mut places = Vec::with_capacity(alloc, next.states())?;
    for state in 0..next.states() {
        let here = GroupInState {
            least,
            misses: group,
            next,
            state,
        };
        places.push(best_among(&here, runs, 1, state))?;
    }
    Ok(StateRow { places })
}
