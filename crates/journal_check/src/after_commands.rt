//! Whether entries stand after all entries of other commands before their epoch.
ghost use Rattle.std.specs.Prelude.{◌≡◌, ◌↔◌, ◌<◌, IsTrue, MatchOption, length};
ghost use Rattle.journal_check.specs.AfterCommands.{IsAccepted, IsAfterCommands, IsLate, IsRefused, noted, other_epoch};
ghost use Rattle.journal_check.specs.Places.{ArePlaces};
ghost use Rattle.run_law.specs.Clauses.{StandAfterCommands};
ghost use Rattle.journal_check.specs.Tables.{IsTableOf};
ghost use Rattle.machine.specs.Slices.{slice_count};
ghost use Rattle.run_law.specs.Journals.{slice_at};

use crate::op_table::OpTable;
use cache_core::SliceEntry;
use run_law::Journals;
use script_ops::Script;

/// The greatest epoch of an entry and the op that it is of, and the greatest epoch of an entry of another op; 0 where there is none.
#[derive(Clone, Copy, Debug, PartialEq, Eq)]
pub struct TwoLatestEpochs {
    pub thread: u32,
    pub op: u32,
    pub epoch: u64,
    pub other: u64,
}

// The greatest epoch of an entry of another op than this entry's.
fn other_epoch(latest: &TwoLatestEpochs, entry: &SliceEntry) -> u64
    ensures { result ≡ other_epoch latest.now entry.now }
{
    if entry.thread == latest.thread && entry.op == latest.op {
        latest.other
    } else {
        latest.epoch
    }
}

// With one entry more.
fn noted(latest: &TwoLatestEpochs, entry: &SliceEntry) -> TwoLatestEpochs
    ensures { result ≡ noted latest.now entry.now }
{
    if entry.thread == latest.thread && entry.op == latest.op {
        TwoLatestEpochs {
            epoch: latest.epoch.max(entry.epoch),
            ..*latest
        }
    } else if latest.epoch < entry.epoch {
        TwoLatestEpochs {
            thread: entry.thread,
            op: entry.op,
            epoch: entry.epoch,
            other: latest.epoch,
        }
    } else {
        TwoLatestEpochs {
            other: latest.other.max(entry.epoch),
            ..*latest
        }
    }
}

// Whether an entry of a command that the tree took at this place, counted from 1, or of no command where that is 0, stands
// behind one of another op of a later epoch.
fn is_late(latest: &TwoLatestEpochs, place: u64, entry: &SliceEntry) -> bool
    ensures { IsTrue result ↔ IsLate latest.now place entry.now }
{
    0 < place && place <= other_epoch(latest, entry)
}

// The epochs with one entry more, and None where it is late. `place` is None for an entry of no op, which is passed over.
fn pass(latest: &TwoLatestEpochs, place: Option<u64>, entry: &SliceEntry) -> Option<TwoLatestEpochs>
    ensures { MatchOption result (IsRefused latest.now place entry.now) (λ next. IsAccepted latest.now place entry.now next) }
{
    match place {
        Some(place) => {
            if is_late(latest, place, entry) {
                None
            } else {
                Some(noted(latest, entry))
            }
        }
        None => Some(*latest),
    }
}

// Whether the entries of a slice stand after all entries of other commands before their epoch. `places` says where the tree
// took each command.
fn is_after_commands(script: &Script, places: &OpTable, j: &Journals, i: u32) -> bool
    requires slice { i < length j.now.slices }
    requires table { IsTableOf script.now places.now }
    requires places { ArePlaces script.now places.now j.now.tree }
    ensures { IsTrue result ↔ IsAfterCommands script.now j.now.tree (slice_at j.now i) }
{
    let entries = j.slice(i);
    let mut latest = TwoLatestEpochs {
        thread: 0,
        op: 0,
        epoch: 0,
        other: 0,
    };
    for entry in entries {
        match pass(&latest, places.get(entry.thread, entry.op), entry) {
            Some(next) => latest = next,
            None => return false,
        }
    }
    true
}

/// Whether in each slice the entries stand after all entries of other commands before their epoch, in the time of the entries.
pub fn are_after_commands(script: &Script, places: &OpTable, j: &Journals) -> bool
    requires all { length j.now.slices ≡ slice_count script.now.machine }
    requires table { IsTableOf script.now places.now }
    requires places { ArePlaces script.now places.now j.now.tree }
    ensures { IsTrue result ↔ StandAfterCommands script.now j.now }
{
    for i in 0..script.machine().slice_count() {
        if !is_after_commands(script, places, j, u32::from(i)) {
            return false;
        }
    }
    true
}
