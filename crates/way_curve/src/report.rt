//! The report of the curves of a trace.
ghost use Rattle.std.specs.Prelude.{◌≡◌, ◌+◌, ◌-◌, ◌≤◌, ◌++◌, ℕ, Bool, List, Some, length};
ghost use Rattle.lackey_text.specs.declared.uses.LineUse.{LineUse as Use};
ghost use Rattle.way_curve.specs.Counting.{HaveCounted, IsCurveOf};
ghost use Rattle.way_curve.specs.CurveTexts.{counts_line, curve_lines, estimate_text, first_lines, first_text, hint_text, line_of_ways, part_text, report_of, sample_text};
ghost use Rattle.way_curve.specs.FirstUses.{asked_first_uses};
ghost use Rattle.way_curve.specs.declared.report_limits.TheConstants.{MOST_REPORT_BYTES, MOST_SAMPLE_BYTES};

use crate::asked_first::{first_of_all, first_of_code, first_of_data};
use crate::numbers::{push_number, push_wide};
use crate::{Curve, FirstUses, UseCurves};
use rc_base::TextBuf;

// Adds the estimate of the misses of all lines by those of a sample, if it is asked for.
fn push_estimate(scale: Option<u32>, misses: u64, out: &mut TextBuf)
    requires { 50 ≤ out.old.spare }
    ensures bytes { out.new.bytes ≡ out.old.bytes ++ estimate_text scale misses }
    ensures spare { out.old.spare ≤ out.new.spare + 50 }
{
    if let Some(one_of) = scale {
        let estimate = u128::from(one_of) * u128::from(misses);
        push_wide(b" estimate ".as_slice(), estimate, out);
    }
}

// Adds the line of one number of ways.
#[tactic(auto, unfolding(crate::specs::CurveTexts::counts_line))]
fn push_counts(scale: Option<u32>, ways: u8, uses: u64, hits: u64, out: &mut TextBuf)
    requires hits { hits ≤ uses }
    requires room { 161 ≤ out.old.spare }
    ensures bytes { out.new.bytes ≡ out.old.bytes ++ counts_line scale ways uses hits }
    ensures spare { out.old.spare ≤ out.new.spare + 161 }
{
    push_number(b"ways ".as_slice(), u64::from(ways), out);
    push_number(b": accesses ".as_slice(), uses, out);
    push_number(b" hits ".as_slice(), hits, out);
    push_number(b" misses ".as_slice(), uses - hits, out);
    push_estimate(scale, uses - hits, out);
    out.push(b'\n');
}

// Adds the line of one number of ways of a curve.
fn push_line(scale: Option<u32>, curve: &Curve, ways: u8, out: &mut TextBuf)
    requires ways { ways ≤ 32 }
    requires room { 161 ≤ out.old.spare }
    ensures bytes { (sets : ℕ) (lines : List ℕ) → IsCurveOf sets curve.now lines → out.new.bytes ≡ out.old.bytes ++ line_of_ways scale sets lines ways }
    ensures spare { out.old.spare ≤ out.new.spare + 161 }
{
    push_counts(scale, ways, curve.uses(), curve.hits(ways), out);
}

// Adds the hint, where there is one.
fn push_hint(is_flat: bool, out: &mut TextBuf)
    requires { 47 ≤ out.old.spare }
    ensures bytes { out.new.bytes ≡ out.old.bytes ++ hint_text is_flat }
    ensures spare { out.old.spare ≤ out.new.spare + 47 }
{
    if is_flat {
        out.push_all(b"hint: most misses with one way are first uses\n".as_slice());
    }
}

// Adds the line of so many first uses, and the hint, if they are more than half of so many misses.
fn push_count(first: u64, misses: u64, out: &mut TextBuf)
    requires { 79 ≤ out.old.spare }
    ensures bytes { out.new.bytes ≡ out.old.bytes ++ first_text first misses }
    ensures spare { out.old.spare ≤ out.new.spare + 79 }
{
    push_number(b"first uses ".as_slice(), first, out);
    out.push(b'\n');
    push_hint(misses / 2 < first, out);
}

// Adds the lines of the first uses of a curve, if they are counted.
fn push_first(first: Option<u64>, curve: &Curve, out: &mut TextBuf)
    requires { 79 ≤ out.old.spare }
    ensures bytes { (sets : ℕ) (lines : List ℕ) → IsCurveOf sets curve.now lines → out.new.bytes ≡ out.old.bytes ++ first_lines first sets lines }
    ensures spare { out.old.spare ≤ out.new.spare + 79 }
{
    if let Some(first) = first {
        push_count(first, curve.misses(1), out);
    }
}

// Adds a line for each number of ways.
fn push_lines(scale: Option<u32>, curve: &Curve, ways: u8, out: &mut TextBuf)
    requires ways { ways ≤ 32 }
    requires room { 5152 ≤ out.old.spare }
    ensures bytes { (sets : ℕ) (lines : List ℕ) → IsCurveOf sets curve.now lines → out.new.bytes ≡ out.old.bytes ++ curve_lines scale sets ways lines }
    ensures spare { out.old.spare ≤ out.new.spare + 5152 }
{
    for fewer in 0..ways {
        push_line(scale, curve, fewer + 1, out);
    }
}

// Adds a part of the report, whose name stands on a line.
fn push_part(
    name: &[u8],
    scale: Option<u32>,
    first: Option<u64>,
    curve: &Curve,
    ways: u8,
    out: &mut TextBuf,
)
    requires ways { ways ≤ 32 }
    requires name { length name.now ≤ 15 }
    requires room { 5246 ≤ out.old.spare }
    ensures bytes { (sets : ℕ) (lines : List ℕ) → IsCurveOf sets curve.now lines
        → out.new.bytes ≡ out.old.bytes ++ part_text scale first sets ways name.now lines }
    ensures spare { out.old.spare ≤ out.new.spare + 5246 }
{
    out.push_all(name);
    push_first(first, curve, out);
    push_lines(scale, curve, ways, out);
}

// Adds the line that says that counts are of a sample.
fn push_sample_line(one_of: u32, sets: u32, out: &mut TextBuf)
    requires { MOST_SAMPLE_BYTES ≤ out.old.spare }
    ensures bytes { out.new.bytes ≡ out.old.bytes ++ sample_text (Some one_of) sets }
    ensures spare { out.old.spare ≤ out.new.spare + MOST_SAMPLE_BYTES }
{
    push_number(b"sample: one of ".as_slice(), u64::from(one_of), out);
    push_number(b" lines, ".as_slice(), u64::from(sets), out);
    out.push_all(b" sets\n".as_slice());
}

/// Adds the line that says that counts are of a sample of one line of memory of so many, in caches of so many sets; nothing where no
/// sample is taken.
pub fn push_sample(one_of: Option<u32>, sets: u32, out: &mut TextBuf)
    requires { MOST_SAMPLE_BYTES ≤ out.old.spare }
    ensures bytes { out.new.bytes ≡ out.old.bytes ++ sample_text one_of sets }
    ensures spare { out.old.spare ≤ out.new.spare + MOST_SAMPLE_BYTES }
{
    if let Some(one_of) = one_of {
        push_sample_line(one_of, sets, out);
    }
}

/// Adds the report of the curves of a trace for each number of ways from 1 to this one, 32 at most; with estimates by the misses of a
/// sample of one line of so many, if they are asked for, and with first uses, if they are counted.
pub fn push_report(
    curves: &UseCurves,
    scale: Option<u32>,
    first: Option<FirstUses>,
    ways: u8,
    out: &mut TextBuf,
)
    requires ways { ways ≤ 32 }
    requires room { MOST_REPORT_BYTES ≤ out.old.spare }
    ensures { (has_first : Bool) (sets : ℕ) (uses : List Use) → HaveCounted sets curves.now uses → first ≡ asked_first_uses has_first uses
        → out.new.bytes ≡ out.old.bytes ++ report_of scale has_first sets ways uses }
{
    let all = b"data and code:\n".as_slice();
    push_part(all, scale, first_of_all(first), curves.of_all(), ways, out);
    let data = b"data:\n".as_slice();
    push_part(
        data,
        scale,
        first_of_data(first),
        curves.of_data(),
        ways,
        out,
    );
    let code = b"code:\n".as_slice();
    push_part(
        code,
        scale,
        first_of_code(first),
        curves.of_code(),
        ways,
        out,
    );
}
