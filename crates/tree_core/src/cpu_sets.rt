//! Sets of CPUs: what a text names, and giving them to a group.
ghost use Rattle.std.specs.Prelude.{◌≡◌, Err};
ghost use Rattle.group_tree.specs.declared.group_kind.GroupKind.TheVariants as kinds;
ghost use Rattle.machine.specs.Maps.{parameters_of};
ghost use Rattle.tree_core.specs.CpuFiles.{named_by, set_read, unless};
ghost use Rattle.tree_law.specs.Refusals.{reply_of};
ghost use Rattle.tree_law.specs.commands.Cpus.{against_read, against_set, cpus_after};

use cpu_binding::Cpus;
use cpu_lists::{CpuFault, read_list, read_mask};
use group_tree::GroupKind;
use machine::Machine;
use num_text::trim;
use path_names::FileKind;
use rc_base::{Gid, Reply, Why};

/// The set of CPUs that the text of a file names, or its fault.
pub(crate) fn read_cpus(m: &Machine, kind: FileKind, text: &[u8]) -> Result<u64, CpuFault>
    ensures { result ≡ set_read (named_by (parameters_of m.now) kind text.now) }
{
    match kind {
        FileKind::CpusList => read_list(trim(text), m.cpus),
        _ => read_mask(trim(text), m.cpus),
    }
}

/// The refusal that goes with a text's fault.
pub(crate) fn refusal(fault: CpuFault, gid: Gid, kind: GroupKind, cpus: &Cpus) -> Reply
    ensures { result ≡ reply_of (against_read gid kind cpus.now (Err fault)) }
{
    match fault {
        CpuFault::Bad => Reply::refused(Why::BadCpus, 0),
        CpuFault::NotACpu { cpu } => Reply::refused(Why::NotACpu, cpu),
    }
}

/// Gives a group a set of CPUs, where nothing is against it.
pub(crate) fn give(cpus: &mut Cpus, gid: Gid, kind: GroupKind, set: u64) -> Reply
    ensures reply { result ≡ reply_of (against_set gid kind cpus.old set) }
    ensures cpus { cpus.new ≡ unless (against_set gid kind cpus.old set) cpus.old (cpus_after gid kind set cpus.old) }
{
    match kind {
        GroupKind::Control => give_control(cpus, gid, set),
        GroupKind::Monitor { parent } => give_monitor(cpus, gid, parent, set),
    }
}

// Gives a control group a set of CPUs. The default group drops none.
fn give_control(cpus: &mut Cpus, gid: Gid, set: u64) -> Reply
    ensures reply { result ≡ reply_of (against_set gid kinds.Control cpus.old set) }
    ensures cpus { cpus.new
        ≡ unless (against_set gid kinds.Control cpus.old set) cpus.old (cpus_after gid kinds.Control set cpus.old) }
{
    match cpus.set_ctrl(gid, set) {
        Ok(()) => Reply::Ok,
        Err(_) => Reply::refused(Why::DropsDefault, 0),
    }
}

// Gives a monitor group a set of its parent's CPUs.
fn give_monitor(cpus: &mut Cpus, gid: Gid, parent: Gid, set: u64) -> Reply
    ensures reply { result ≡ reply_of (against_set gid (kinds.Monitor parent) cpus.old set) }
    ensures cpus { cpus.new ≡ unless (against_set gid (kinds.Monitor parent) cpus.old set) cpus.old
        (cpus_after gid (kinds.Monitor parent) set cpus.old) }
{
    match cpus.set_mon(parent, gid, set) {
        Ok(()) => Reply::Ok,
        Err(_) => Reply::refused(Why::NotParents, 0),
    }
}
