//! What programs ask of a division.
ghost use Rattle.std.specs.Prelude.{◌≡◌, ◌+◌, ◌≤◌, ◌++◌, ℕ, All, List, OnOk, get_or, length};
ghost use Rattle.way_curve.specs.IsCurve.{IsCurve};
ghost use Rattle.share_plans.specs.Played.{Asked, ArePlayed, HasPlayed, OwnValue};
ghost use Rattle.share_plans.specs.Reports.{demands_of, shared_of};
ghost use Rattle.share_plans.specs.Rows.{IsSmall};
ghost use Rattle.share_plans.specs.Sharing.{lines_of, misses_by, shared_misses_of};
ghost use Rattle.share_plans.specs.declared.division_limits.TheConstants.{MOST_USES, MOST_WEIGHT};
ghost use Rattle.share_plans.specs.declared.program.Program.{Program as Wish};
ghost use Rattle.share_plans.specs.declared.program_use.ProgramUse.{ProgramUse as Use};

use crate::demand::Demand;
use crate::division_limits::MOST_WAYS;
use crate::own_uses::OwnUses;
use crate::program::Program;
use rc_base::NoMemory;
use way_curve::Curve;

// What misses with each number of ways, from 0 to 32.
fn misses_of(curve: &Curve) -> [u64; MOST_WAYS + 1]
    ensures misses { (lines : List ℕ) → IsCurve curve.now lines → result ≡ misses_by curve.now.sets lines }
    ensures few { All (λ n. n ≤ curve.now.uses) result }
{
    let mut row = [0; MOST_WAYS + 1];
    for ways in 0..MOST_WAYS + 1 {
        row[ways] = curve.uses() - curve.hits(ways as u8);
    }
    row
}

// What a program asks of a division.
fn demand_of(program: &Program, own: &OwnUses) -> Demand
    requires weight { program.now.weight ≤ MOST_WEIGHT }
    requires few { own.now.curve.uses ≤ MOST_USES }
    ensures demand { (asked : Asked) (k : ℕ) (uses : List Use) → HasPlayed asked k own.now uses
        → result ≡ record { weight = program.now.weight; least = program.now.least; misses = misses_by asked.sets (lines_of k uses) } }
    ensures small { IsSmall result }
{
    Demand {
        weight: program.weight,
        least: program.least,
        misses: misses_of(own.curve()),
    }
}

/// Adds what programs ask of a division, by their uses.
pub(crate) fn push_demands(
    demands: &mut Vec<Demand>,
    programs: &[Program],
    own: &[OwnUses],
) -> Result<(), NoMemory>
    requires weights { All (λ (p : Wish). p.weight ≤ MOST_WEIGHT) programs.now }
    requires few { All (λ (o : OwnValue). o.curve.uses ≤ MOST_USES) own.now }
    requires small { All IsSmall demands.old.items }
    ensures small { OnOk result (All IsSmall demands.new.items) }
    ensures count { OnOk result (length demands.new.items ≤ length demands.old.items + length programs.now) }
    ensures demands { OnOk result ((asked : Asked) (k : ℕ) (uses : List Use) → ArePlayed asked k programs.now own.now uses
        → demands.new.items ≡ demands.old.items ++ demands_of asked.sets k programs.now uses) }
{
    let [program, programs @ ..] = programs else {
        return Ok(());
    };
    let [one, own @ ..] = own else {
        return Ok(());
    };
    demands.push(demand_of(program, one))?;
    push_demands(demands, programs, own)
}

/// Adds what programs miss in the cache that all share.
pub(crate) fn push_shared(
    misses: &mut Vec<u64>,
    programs: &[Program],
    own: &[OwnUses],
) -> Result<(), NoMemory>
    requires few { All (λ (o : OwnValue). o.curve.uses ≤ MOST_USES) own.now }
    requires misses { All (λ n. n ≤ MOST_USES) misses.old.items }
    ensures few { OnOk result (All (λ n. n ≤ MOST_USES) misses.new.items) }
    ensures count { OnOk result (length misses.new.items ≤ length misses.old.items + length programs.now) }
    ensures shared { OnOk result ((asked : Asked) (k : ℕ) (uses : List Use) → ArePlayed asked k programs.now own.now uses
        → misses.new.items ≡ misses.old.items ++ shared_of asked.sets asked.ways k programs.now uses) }
{
    let [_, programs @ ..] = programs else {
        return Ok(());
    };
    let [one, own @ ..] = own else {
        return Ok(());
    };
    misses.push(one.shared_misses())?;
    push_shared(misses, programs, own)
}
