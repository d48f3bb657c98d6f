//! The report of a stream of several programs.
ghost use Rattle.std.specs.Prelude.{◌≡◌, ◌≤◌, ◌*◌, ◌^◌, ◌++◌, All, Bool, List, ℕ, OnOk, codes, decimal, length, sum};
ghost use Rattle.std.specs.List.{flat_map, range_with_len};
ghost use Rattle.way_curve.specs.CurveTexts.{ways_line};
ghost use Rattle.share_plans.specs.Reports.{curve_text, curve_texts, row_line, verdict_line};

use crate::demand::Demand;
use crate::division_limits::MOST_WAYS;
use crate::program::Program;
use num_text::GrowingText;
use rc_base::NoMemory;

// Adds the line of one number of ways.
#[tactic(auto, unfolding(way_curve::specs::CurveTexts::ways_line))]
fn push_counts(text: &mut GrowingText, ways: u8, uses: u64, hits: u64) -> Result<(), NoMemory>
    requires { hits ≤ uses }
    ensures { OnOk result (text.new ≡ text.old ++ ways_line ways uses hits) }
{
    text.push(b"ways ")?;
    text.push_decimal(u64::from(ways))?;
    text.push(b": accesses ")?;
    text.push_decimal(uses)?;
    text.push(b" hits ")?;
    text.push_decimal(hits)?;
    text.push(b" misses ")?;
    text.push_decimal(uses - hits)?;
    text.push(b"\n")
}

// Adds the same by the misses with each number of ways.
fn push_row_line(
    text: &mut GrowingText,
    row: &[u64; MOST_WAYS + 1],
    ways: u8,
) -> Result<(), NoMemory>
    requires { ways ≤ 32 }
    ensures { OnOk result (text.new ≡ text.old ++ row_line row.now ways) }
{
    let uses = row[0];
    let hits = uses.saturating_sub(row[ways as usize]);
    push_counts(text, ways, uses, hits)
}

// Adds the lines of each number of ways from 1 on, up to this one.
fn push_row(text: &mut GrowingText, row: &[u64; MOST_WAYS + 1], ways: u8) -> Result<(), NoMemory>
    requires { ways ≤ 32 }
    ensures { OnOk result (text.new ≡ text.old ++ flat_map (row_line row.now) (range_with_len 1 ways)) }
{
    for fewer in 0..ways {
        push_row_line(text, row, fewer + 1)?;
    }
    Ok(())
}

// Adds the curve of a program.
fn push_curve(
    text: &mut GrowingText,
    ways: u8,
    program: &Program,
    demand: &Demand,
) -> Result<(), NoMemory>
    requires { ways ≤ 32 }
    ensures { OnOk result (text.new ≡ text.old ++ curve_text ways program.now demand.now) }
{
    text.push(b"program ")?;
    text.push(program.name.as_slice())?;
    text.push(b":\n")?;
    push_row(text, &demand.misses, ways)
}

/// Adds the curve of each program, for each number of ways up to this one.
pub(crate) fn push_curves(
    text: &mut GrowingText,
    ways: u8,
    programs: &[Program],
    demands: &[Demand],
) -> Result<(), NoMemory>
    requires { ways ≤ 32 }
    ensures { OnOk result (text.new ≡ text.old ++ curve_texts ways programs.now demands.now) }
{
    let [program, programs @ ..] = programs else {
        return Ok(());
    };
    let [demand, demands @ ..] = demands else {
        return Ok(());
    };
    push_curve(text, ways, program, demand)?;
    push_curves(text, ways, programs, demands)
}

/// Adds the line that says whether to divide.
pub(crate) fn push_verdict(text: &mut GrowingText, is_better: bool) -> Result<(), NoMemory>
    ensures { OnOk result (text.new ≡ text.old ++ verdict_line is_better) }
{
    if is_better {
        text.push(b"divide: sharing is worse\n")
    } else {
        text.push(b"do not divide: sharing is no worse\n")
    }
}
