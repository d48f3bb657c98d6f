//! The file `llc_occupancy` of a group in a domain.
ghost use Rattle.std.specs.Prelude.{◌≡◌, ◌+◌, ◌*◌, ◌≤◌, ◌^◌, ◌++◌, All, length};
ghost use Rattle.std.specs.List.{sum};
ghost use Rattle.file_view.specs.MachineFiles.{occupancy_text};

use crate::numbers::{NUMBER_MAX, push_number};
use group_tree::PLACES;
use rc_base::TextBuf;
use tree_core::Groups;

// How many lines these counts are together.
fn lines_of(looks: &[u64]) -> u64
    requires few { length looks.now ≤ PLACES + 1 }
    requires counts { All (λ n. n ≤ 2 ^ 32) looks.now }
    ensures sum { result ≡ sum looks.now }
    ensures small { result ≤ 2 ^ 32 * length looks.now }
{
    let mut lines = 0;
    for count in looks {
        lines += *count;
    }
    lines
}

/// Adds the text of `llc_occupancy`, by the counts of the lines of a group's RMID and of those of its monitor groups.
pub(crate) fn push_occupancy(groups: &Groups, looks: &[u64], out: &mut TextBuf)
    requires few { length looks.now ≤ length groups.now.groups + 1 }
    requires counts { All (λ n. n ≤ 2 ^ 32) looks.now }
    requires room { NUMBER_MAX ≤ out.old.spare }
    ensures bytes { out.new.bytes ≡ out.old.bytes ++ occupancy_text looks.now }
    ensures spare { out.new.spare + length (occupancy_text looks.now) ≡ out.old.spare }
{
    let most = groups.len() as usize + 1;
    prove!(looks.len() <= most);
    push_number(64 * lines_of(looks), out);
}
