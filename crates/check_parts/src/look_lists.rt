//! The entries of a slice that are the first looks of their commands.
ghost use Rattle.std.specs.Prelude.{◌≡◌, ◌<◌, ◌∷◌, ◌++◌, [], IfOk, List, OnOk};
ghost use Rattle.cache_core.specs.declared.entry.SliceEntry.{SliceEntry};
ghost use Rattle.check_parts.specs.JudgedSlices.{HaveLooks};
ghost use Rattle.check_parts.specs.NotedLooks.{AreNoted, KeepsFirst, look_number_of, looked_rmid};

use cache_core::{SliceEntry, What};
use rc_base::NoMemory;
use script_ops::Script;
use std::alloc::Global;
use std::collections::BTreeSet;

// An op and an RMID as one number.
fn look_number_of(thread: u32, op: u32, rmid: u16) -> u128
    ensures number { result ≡ look_number_of thread op rmid }
    ensures op { op < 4294967296 }
    ensures rmid { rmid < 65536 }
{
    (u128::from(thread) * 4_294_967_296 + u128::from(op)) * 65_536 + u128::from(rmid)
}

// The RMID of a look.
fn looked_rmid(what: What) -> Option<u16>
    ensures { result ≡ looked_rmid what }
{
    match what {
        What::Look { rmid, lines: _ } => Some(rmid),
        What::Access { .. } | What::Raise | What::Flush | What::Lock { .. } | What::Drop { .. } => {
            None
        }
    }
}

// Keeps an entry, where this number was not noted.
fn keep_first(
    looks: &mut Vec<SliceEntry>,
    noted: &mut BTreeSet<u128>,
    entry: &SliceEntry,
    number: u128,
) -> Result<(), NoMemory>
    ensures { OnOk result (KeepsFirst noted.old noted.new looks.old.items looks.new.items entry.now number) }
{
    let first = noted.insert(number)?;
    if !first {
        return Ok(());
    }
    looks.push(*entry)?;
    Ok(())
}

// Keeps an entry, where it is the first look of an op of the script at its RMID.
fn note(
    looks: &mut Vec<SliceEntry>,
    noted: &mut BTreeSet<u128>,
    script: &Script,
    entry: &SliceEntry,
) -> Result<(), NoMemory>
    ensures { OnOk result ((before : List SliceEntry) → AreNoted script.now before looks.old.items noted.old → AreNoted script.now (before ++ entry.now ∷ []) looks.new.items noted.new) }
{
    let Some(rmid) = looked_rmid(entry.what) else {
        return Ok(());
    };
    if script.op(entry.thread, entry.op).is_none() {
        return Ok(());
    }
    let number = look_number_of(entry.thread, entry.op, rmid);
    keep_first(looks, noted, entry, number)
}

/// The first look of each op of the script at each RMID among the entries of a slice, in the time of the entries, each with a search.
/// NoMemory where there is no room for them.
pub(crate) fn looks_in(
    alloc: Global,
    script: &Script,
    entries: &[SliceEntry],
) -> Result<Vec<SliceEntry>, NoMemory>
    ensures { IfOk result (λ looks. HaveLooks script.now entries.now looks.items) }
{
    let mut looks = Vec::new(alloc);
    let mut noted = BTreeSet::new(alloc);
    for entry in entries {
        note(&mut looks, &mut noted, script, entry)?;
    }
    Ok(looks)
}
