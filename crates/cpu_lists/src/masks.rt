//! Reading a CPU mask.
ghost use Rattle.std.specs.Prelude.{◌≡◌, ◌≤◌, ◌<◌, ◌^◌, IfOk};
ghost use Rattle.std.specs.Option.{option_map};
ghost use Rattle.std.specs.List.{slice_split};
ghost use Rattle.cpu_lists.specs.Sets.{Says, answer_of};
ghost use Rattle.cpu_lists.specs.Masks.{comma, cpus_in, each, group_of, mask_cpus};
ghost use Rattle.cpu_lists.specs.Collected.{IsCollected};

use crate::fault::CpuFault;
use crate::numbers::Numbers;
use num_text::{after_prefix, cut, read_digits};

// The number of a group.
fn group(piece: &[u8]) -> Option<u32>
    ensures { result ≡ group_of piece.now }
{
    if piece.len() > 8 {
        return None;
    }
    match read_digits(piece, 16) {
        Some(n) => Some(n as u32),
        None => None,
    }
}

// The numbers that groups separated by commas name.
fn groups(text: &[u8]) -> Option<Numbers>
    ensures { IsCollected (option_map cpus_in (each group_of (slice_split comma text.now))) result }
{
    let mut found = Numbers { low: 0, high: None };
    let mut left = text;
    'groups: loop {
        let (piece, more) = cut(left, b',');
        let Some(group) = group(piece) else {
            return None;
        };
        found = found.with_group(group);
        let Some(rest) = more else {
            return Some(found);
        };
        left = rest;
    }
}

/// The set of CPUs that a mask names, bit c for CPU c, on a machine of `cpus` CPUs.
///
/// The empty text names no CPU. Others are groups separated by `,`, after an optional `0x` or
/// `0X`, each of 1 to 8 hexadecimal digits: the digits to the base 2^32 of a number, of which
/// bit c is CPU c (kernel documentation, the format of `cpus`; the lengths of groups are this
/// project's profile). Bad where the text is nothing of that, and NotACpu where it names a
/// number from `cpus` on.
pub fn read_mask(text: &[u8], cpus: u8) -> Result<u64, CpuFault>
    requires { cpus ≤ 64 }
    ensures said { Says result (answer_of cpus (mask_cpus text.now)) }
    ensures exist { IfOk result (λ set. set < 2 ^ cpus) }
{
    if text.is_empty() {
        return Ok(0);
    }
    match groups(after_prefix(text)) {
        Some(found) => found.answer(cpus),
        None => Err(CpuFault::Bad),
    }
}
