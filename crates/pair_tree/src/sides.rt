//! The sides that a schemata text names.
ghost use Rattle.std.specs.Prelude.{◌≡◌, MatchResult, Ok, Err};
ghost use Rattle.std.specs.List.{after_first};
ghost use Rattle.pair_law.specs.Reading.{side_name, side_named, side_of_line};
ghost use Rattle.schemata_text.specs.Items.{colon};

use crate::machines::Machines;
use num_text::{cut, trim};
use pair_text::Side;
use rc_base::is_text;
use schemata_text::TextFault;

/// The name of a side: `L3DATA` or `L3CODE` (kernel documentation, "L3 schemata file details (CDP enabled via mount option to
/// resctrl)"), and `L2` or `L3` where the sides are two levels.
pub(crate) fn side_name(m: &Machines, side: Side) -> &'static str
    ensures { result.now ≡ side_name m.now.l2 side }
{
    match (m.are_levels(), side) {
        (false, Side::First) => "L3DATA",
        (false, Side::Second) => "L3CODE",
        (true, Side::First) => "L2",
        (true, Side::Second) => "L3",
    }
}

// The side of this name.
fn side_named(m: &Machines, name: &[u8]) -> Result<Side, TextFault>
    ensures { result ≡ side_named m.now name.now }
{
    if is_text(name, side_name(m, Side::First).as_bytes()) {
        return Ok(Side::First);
    }
    if is_text(name, side_name(m, Side::Second).as_bytes()) {
        return Ok(Side::Second);
    }
    Err(TextFault::BadResource)
}

/// The side that a line names, and what stands after the line's colon; an error is its first fault.
#[tactic(auto, unfolding(pair_law::specs::Reading::side_of_line))]
pub(crate) fn side_of_line<'a>(m: &Machines, line: &'a [u8]) -> Result<(Side, &'a [u8]), TextFault>
    ensures { MatchResult result
        (λ found. (side_of_line m.now line.now ≡ Ok found.0) × (found.1.now ≡ after_first colon line.now))
        (λ fault. side_of_line m.now line.now ≡ Err fault) }
{
    let (name, rest) = cut(line, b':');
    let Some(rest) = rest else {
        return Err(TextFault::NoColon);
    };
    let side = side_named(m, trim(name))?;
    if trim(rest).is_empty() {
        return Err(TextFault::NoValue);
    }
    Ok((side, rest))
}
