//! What an op weighs against the limit of a script.
ghost use Rattle.std.specs.Prelude.{◌≡◌, ◌<◌};
ghost use Rattle.machine.specs.Maps.{parameters_of};
ghost use Rattle.script_ops.specs.Weights.{looks_weight, write_weight, read_weight, weight_of};

use crate::op::Op;
use machine::Machine;
use path_names::{FileKind, PathRef};

// A look at each RMID in each slice, one more entry in each slice, and 1.
fn looks_weight(m: &Machine) -> u64
    ensures value { result ≡ looks_weight (parameters_of m.now) }
    ensures some { 0 < result }
{
    (u64::from(m.rmids) + 1) * (u64::from(m.domains) * u64::from(m.slices)) + 1
}

// The weight of a write to a path.
fn write_weight(m: &Machine, path: PathRef) -> u64
    ensures value { result ≡ write_weight (parameters_of m.now) path }
    ensures some { 0 < result }
{
    let slices = u64::from(m.domains) * u64::from(m.slices);
    match path {
        PathRef::File(_, FileKind::Schemata) => slices + 1,
        PathRef::File(_, FileKind::Mode) => 2 * slices + 1,
        _ => 1,
    }
}

// The weight of a read of a path.
fn read_weight(m: &Machine, path: PathRef) -> u64
    ensures value { result ≡ read_weight (parameters_of m.now) path }
    ensures some { 0 < result }
{
    match path {
        PathRef::File(_, FileKind::Occupancy) => looks_weight(m),
        _ => 1,
    }
}

/// The weight of an op on a machine: in all journals together it makes at most as many entries, and it needs at most as many
/// counts.
pub fn weight_of(m: &Machine, op: &Op) -> u64
    ensures value { result ≡ weight_of (parameters_of m.now) op.now }
    ensures some { 0 < result }
{
    match op {
        Op::Mkdir { .. } | Op::List { .. } | Op::Access { .. } => 1,
        Op::Rmdir { .. } | Op::Tick => looks_weight(m),
        Op::Write { path, .. } => write_weight(m, *path),
        Op::Read { path } => read_weight(m, *path),
        Op::Flush { .. } | Op::DropLine { .. } | Op::DropRegion { .. } => u64::from(m.domains)
            * u64::from(m.slices)
            + 1,
        Op::Touch { .. } => 2,
    }
}
