//! The best place of a group in a state of the runs.
ghost use Rattle.std.specs.Prelude.{◌≡◌, ℕ, ◌+◌, ◌-◌, ◌*◌, ◌^◌, ◌<◌, ◌≤◌, All, IfSome, length};
ghost use Rattle.way_plans.specs.Divisions.{end};
ghost use Rattle.way_plans.specs.Placings.{BeatsIn, IsBestAmong, IsPlacedIn, at, placed_at};
ghost use Rattle.way_plans.specs.Runs.{states_of};
ghost use Rattle.way_plans.specs.declared.division_limits.TheConstants.{MOST_STATES};

use crate::placed::{Placed, fewer};
use crate::span::Span;
use crate::state_row::StateRow;

/// A group that is to be placed in a state of the runs, which counts the ways that are left of each.
#[derive(Drop)]
pub(crate) struct GroupInState<'a> {
    /// The fewest ways that it may get.
    pub least: u8,
    /// Its misses with each number of ways from 0 to 32.
    pub misses: &'a [u64],
    /// The row of the groups after it.
    pub next: &'a StateRow,
    /// The state.
    pub state: usize,
}

// What a group and those after it have where the group gets a span, and these have the state that is left.
fn placed_at(group: &[u64], next: &StateRow, rest: usize, span: Span) -> Option<Placed>
    requires count { length group.now ≡ 33 }
    requires few { span.count ≤ 32 }
    requires own { All (λ n. n ≤ 2 ^ 48) group.now }
    requires next { (state : ℕ) → IfSome (at next.now state) (λ placed. placed.misses ≤ 2 ^ 60) }
    ensures { result ≡ placed_at group.now next.now rest span }
{
    let later = next.best(rest)?;
    Some(Placed {
        span,
        misses: group[span.count as usize] + later.misses,
        rest,
    })
}

// The best place in what is left of a run, whose ways the state counts in steps of `stride`.
fn best_in(group: &GroupInState<'_>, stride: usize, run: Span, left: u8) -> Option<Placed>
    requires run { end run ≤ 32 }
    requires left { left ≤ run.count }
    requires steps { left * stride ≤ group.now.state }
    requires count { length group.now.misses.now ≡ 33 }
    requires own { All (λ n. n ≤ 2 ^ 48) group.now.misses.now }
    requires next { (state : ℕ) → IfSome (at group.now.next.now state) (λ placed. placed.misses ≤ 2 ^ 60) }
    ensures placed { IfSome result (IsPlacedIn group.now.least group.now.misses.now group.now.next.now group.now.state stride run left) }
    ensures beats { BeatsIn group.now.least group.now.misses.now group.now.next.now group.now.state stride run left result }
{
    let first = run.first + run.count - left;
    let mut best = None;
    for count in group.least..left + 1 {
        let rest = group.state - count as usize * stride;
        let span = Span { first, count };
        best = fewer(best, placed_at(group.misses, group.next, rest, span));
    }
    best
}

/// The best place of a group in a state of runs. `left` is what the state counts of these runs, in steps of `stride`.
pub(crate) fn best_among(
    group: &GroupInState<'_>,
    runs: &[Span],
    stride: usize,
    left: usize,
) -> Option<Placed>
    requires runs { All (λ run. end run ≤ 32) runs.now }
    requires steps { left * stride ≤ group.now.state }
    requires few { stride * states_of runs.now ≤ MOST_STATES }
    requires count { length group.now.misses.now ≡ 33 }
    requires own { All (λ n. n ≤ 2 ^ 48) group.now.misses.now }
    requires next { (state : ℕ) → IfSome (at group.now.next.now state) (λ placed. placed.misses ≤ 2 ^ 60) }
    ensures { IsBestAmong group.now.least group.now.misses.now group.now.next.now group.now.state runs.now stride left result }
{
    let [run, later @ ..] = runs else {
        return None;
    };
    let counts = run.count as usize + 1;
    let here = best_in(group, stride, *run, (left % counts) as u8);
    let behind = best_among(group, later, stride * counts, left / counts);
    fewer(behind, here)
}
