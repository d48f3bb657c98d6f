//! Streams of two programs are read, and have their reports.
ghost use Rattle.std.specs.Prelude.{◌≡◌, ◌<◌, ◌≤◌, All, IfOk, IfSome, length};
ghost use Rattle.share_plans.specs.declared.division_limits.TheConstants.{MOST_WEIGHT};
ghost use Rattle.share_plans.specs.declared.program.Program.{Program as Wish};
ghost use Rattle.share_plans.specs.declared.stream_limits.TheConstants.{MOST_STREAM_BYTES};

use crate::tests::share_texts::{
    BEHIND_L1, SAME_LINES, THREE_LINES, THREE_WAYS, TOO_FEW_WAYS, TWO_LINES, TWO_WAYS, WORST_RATIO,
};
use script_ops::Bytes;
use share_plans::{Goal, Program, Stream, share_report};
use std::alloc::Global;
use std::test::Fail;
use way_curve::{LevelShape, LevelShapes};

const NO_LEVELS: LevelShapes = LevelShapes { l1: None, l2: None };

// A program with its name.
fn program(alloc: Global, name: &[u8], weight: u32, least: u8) -> Result<Program, Fail>
    ensures { IfOk result (λ p. p.weight ≡ weight) }
{
    let name = Bytes::from_vec(alloc, Vec::from_slice(alloc, name)?)?;
    Ok(Program {
        name,
        weight,
        least,
    })
}

// Two programs, of which the second has a weight and a least number of ways.
fn programs(alloc: Global, weight: u32, least: u8) -> Result<Vec<Program>, Fail>
    requires { weight ≤ MOST_WEIGHT }
    ensures count { IfOk result (λ ps. length ps.items ≡ 2) }
    ensures weights { IfOk result (λ ps. All (λ (p : Wish). p.weight ≤ MOST_WEIGHT) ps.items) }
{
    let mut programs = Vec::new(alloc);
    programs.push(program(alloc, b"web", 1, 1)?)?;
    programs.push(program(alloc, b"batch", weight, least)?)?;
    Ok(programs)
}

// The report of a stream, or the number of its first bad line.
fn report(
    alloc: Global,
    goal: Goal,
    levels: LevelShapes,
    sets: u32,
    ways: u8,
    programs: &[Program],
    text: &[u8],
) -> Result<Result<Vec<u8>, u64>, Fail>
    requires first { IfSome levels.l1 (λ s. (0 < s.sets) × (s.ways ≤ 32)) }
    requires second { IfSome levels.l2 (λ s. (0 < s.sets) × (s.ways ≤ 32)) }
    requires sets { 0 < sets }
    requires ways { ways ≤ 32 }
    requires few { length programs.now ≤ 32 }
    requires weights { All (λ (p : Wish). p.weight ≤ MOST_WEIGHT) programs.now }
    requires text { length text.now ≤ MOST_STREAM_BYTES }
{
    let mut stream = Stream::create(alloc, levels, sets, ways, programs.len() as u8)?;
    stream.take(text);
    match stream.finish() {
        Ok(played) => Ok(Ok(share_report(alloc, goal, ways, programs, &played)?)),
        Err(bad) => Ok(Err(bad.line)),
    }
}

#[test]
fn ways_are_divided_or_shared(rt: HostRuntime) -> Result<(), Fail> {
    let programs = programs(rt.alloc(), 1, 1)?;
    let two = report(
        rt.alloc(),
        Goal::Misses,
        NO_LEVELS,
        1,
        2,
        &programs,
        TWO_LINES,
    )?;
    assert!(rt; two.is_ok_and(|text| text.as_slice() == TWO_WAYS));
    let three = report(
        rt.alloc(),
        Goal::Misses,
        NO_LEVELS,
        1,
        3,
        &programs,
        TWO_LINES,
    )?;
    assert!(rt; three.is_ok_and(|text| text.as_slice() == THREE_WAYS));
    Ok(())
}

#[test]
fn each_program_has_levels_of_its_own(rt: HostRuntime) -> Result<(), Fail> {
    let programs = programs(rt.alloc(), 1, 1)?;
    let levels = LevelShapes {
        l1: Some(LevelShape { sets: 1, ways: 1 }),
        l2: None,
    };
    let told = report(
        rt.alloc(),
        Goal::Misses,
        levels,
        1,
        3,
        &programs,
        SAME_LINES,
    )?;
    assert!(rt; told.is_ok_and(|text| text.as_slice() == BEHIND_L1));
    Ok(())
}

#[test]
fn weights_and_least_ways_count(rt: HostRuntime) -> Result<(), Fail> {
    let programs = programs(rt.alloc(), 10, 2)?;
    let four = report(
        rt.alloc(),
        Goal::Ratio,
        NO_LEVELS,
        2,
        4,
        &programs,
        THREE_LINES,
    )?;
    assert!(rt; four.is_ok_and(|text| text.as_slice() == WORST_RATIO));
    let two = report(
        rt.alloc(),
        Goal::Ratio,
        NO_LEVELS,
        2,
        2,
        &programs,
        THREE_LINES,
    )?;
    assert!(rt; two.is_ok_and(|text| text.as_slice() == TOO_FEW_WAYS));
    Ok(())
}

// A use before the first turn, a turn of a third program, and a line that is none of a trace, in whose place the line counts.
const BAD_LINES: [(&[u8], u64); 3] = [
    (b"==1== Lackey\n L 0,4\nturn 0\n", 2),
    (b"turn 1\n L 0,4\nturn 2\n", 3),
    (b"turn 0\nno trace here", 2),
];

#[test]
fn first_bad_lines_are_told(rt: HostRuntime) -> Result<(), Fail> {
    let programs = programs(rt.alloc(), 1, 1)?;
    for (text, line) in BAD_LINES {
        let told = report(rt.alloc(), Goal::Misses, NO_LEVELS, 1, 2, &programs, text)?;
        assert_eq!(rt; told.err(), Some(line));
    }
    Ok(())
}
