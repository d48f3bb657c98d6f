//! How much an op can make: the entries in each slice alike, and the counts that it needs.
ghost use Rattle.std.specs.Prelude.{◌≡◌, ◌≤◌};
ghost use Rattle.machine.specs.Maps.{parameters_of};
ghost use Rattle.run_law.specs.Quotas.{common_quota, most_counts};

use machine::Machine;
use path_names::{FileKind, PathRef};
use script_ops::Op;

/// The most entries that an op makes in each slice alike. An access and a touch go to one slice, and count 0 here.
pub(crate) fn common_quota(m: &Machine, op: &Op) -> u32
    ensures quota { result ≡ common_quota (parameters_of m.now) op.now }
    ensures few { result ≤ 257 }
{
    match op {
        Op::Rmdir { .. } => u32::from(m.rmids) + 1,
        Op::Tick => u32::from(m.rmids),
        Op::Read {
            path: PathRef::File(_, FileKind::Occupancy),
        } => u32::from(m.rmids),
        Op::Write {
            path: PathRef::File(_, FileKind::Mode),
            ..
        } => 2,
        Op::Write {
            path: PathRef::File(_, FileKind::Schemata),
            ..
        } => 1,
        Op::Flush { .. } | Op::DropLine { .. } | Op::DropRegion { .. } => 1,
        _ => 0,
    }
}

/// The greatest number of counts that a command can need.
pub fn most_counts(m: &Machine, op: &Op) -> u32
    ensures { result ≡ most_counts (parameters_of m.now) op.now }
{
    match op {
        Op::Rmdir { .. } | Op::Tick => u32::from(m.domains) * u32::from(m.rmids),
        Op::Read {
            path: PathRef::File(_, FileKind::Occupancy),
        } => u32::from(m.domains) * u32::from(m.rmids),
        Op::Write {
            path: PathRef::File(_, FileKind::Mode),
            ..
        } => u32::from(m.domains),
        _ => 0,
    }
}
