//! Reading a CPU list.
ghost use Rattle.std.specs.Prelude.{◌≡◌, ◌≤◌, ◌<◌, ◌^◌, IfOk, IfSome};
ghost use Rattle.std.specs.Option.{option_map};
ghost use Rattle.std.specs.List.{flat_map, slice_split};
ghost use Rattle.cpu_lists.specs.Sets.{Says, answer_of};
ghost use Rattle.cpu_lists.specs.Masks.{comma, each};
ghost use Rattle.cpu_lists.specs.Lists.{list_cpus, numbers_in, run_of};
ghost use Rattle.cpu_lists.specs.Collected.{IsCollected};

use crate::fault::CpuFault;
use crate::numbers::Numbers;
use crate::runs::Run;
use num_text::{cut, read_dec};

// The numbers of an element.
#[tactic(auto, using(crate::proofs::Pieces::uncut))]
fn element(piece: &[u8]) -> Option<Run>
    ensures value { result ≡ run_of piece.now }
    ensures ordered { IfSome result (λ run. run.first ≤ run.last) }
{
    let (front, back) = cut(piece, b'-');
    let Some(first) = read_dec(front) else {
        return None;
    };
    let Some(back) = back else {
        return Some(Run { first, last: first });
    };
    match read_dec(back) {
        Some(last) if first <= last => Some(Run { first, last }),
        _ => None,
    }
}

// The numbers that elements separated by commas name.
fn elements(text: &[u8]) -> Option<Numbers>
    ensures { IsCollected (option_map (flat_map numbers_in) (each run_of (slice_split comma text.now))) result }
{
    let mut found = Numbers { low: 0, high: None };
    let mut left = text;
    'elements: loop {
        let (piece, more) = cut(left, b',');
        let Some(run) = element(piece) else {
            return None;
        };
        found = found.with_run(run);
        let Some(rest) = more else {
            return Some(found);
        };
        left = rest;
    }
}

/// The set of CPUs that a list names, bit c for CPU c, on a machine of `cpus` CPUs.
///
/// The empty text names no CPU. Others are elements separated by `,`: a number `a`, or a range
/// `a-b` with `a` at most `b`, in decimal and below 2^64. Elements may overlap and come in any
/// order (kernel documentation, the format of `cpus_list`). Bad where the text is nothing of
/// that, and NotACpu where it names a number from `cpus` on.
pub fn read_list(text: &[u8], cpus: u8) -> Result<u64, CpuFault>
    requires { cpus ≤ 64 }
    ensures said { Says result (answer_of cpus (list_cpus text.now)) }
    ensures exist { IfOk result (λ set. set < 2 ^ cpus) }
{
    if text.is_empty() {
        return Ok(0);
    }
    match elements(text) {
        Some(found) => found.answer(cpus),
        None => Err(CpuFault::Bad),
    }
}
