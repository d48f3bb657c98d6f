//! What every trace begins with: its machine, its tasks, the names of its groups, and the phase that makes them.
ghost use Rattle.std.specs.Prelude.{◌≡◌, ◌∷◌, [], IfOk, codes};
ghost use Rattle.machine.specs.Maps.{parameters_of};
ghost use Rattle.path_names.specs.declared.path_ref.PathRef.TheVariants.{Dir, File};
ghost use Rattle.script_ops.specs.declared.op.Op.TheVariants.{Mkdir, Write};
ghost use Rattle.std.specs.List.{range_with_len};
ghost use Rattle.trace_gen.specs.Scripts.{opening_ops, trace_machine};

use machine::{Machine, Parameters};
use path_names::{DirRef, FileKind, NameId, Names, PathRef};
use rc_base::NoMemory;
use script_ops::{Bytes, Op, Ops, Phase};
use std::alloc::Global;

// The directories of the two groups, by the numbers of their names.
const FIRST: DirRef = DirRef::Ctrl(NameId(0));

const SECOND: DirRef = DirRef::Ctrl(NameId(1));

/// The machine: two caches of 256 sets of 16 ways, and eight CPUs.
#[tactic(auto, using(crate::proofs::Lawful::is_machine_trace))]
pub(crate) fn trace_machine() -> Machine
    ensures { parameters_of result ≡ trace_machine }
{
    let parameters = Parameters {
        domains: 2,
        sets: 256,
        ways: 16,
        classes: 4,
        rmids: 8,
        cpus: 8,
        min: 1,
        shareable: 0,
        threshold: 0,
        sparse: false,
        slices: 1,
    };
    match Machine::checked(&parameters) {
        Some(machine) => machine,
        None => unreachable!(),
    }
}

/// The tasks.
pub(crate) fn trace_tasks(alloc: Global) -> Result<Vec<u32>, NoMemory>
    ensures { IfOk result (λ tasks. tasks.items ≡ range_with_len 1 4) }
{
    let tasks = Vec::from_slice(alloc, &[1, 2, 3, 4])?;
    Ok(tasks)
}

/// The names of the groups.
pub(crate) fn group_names(alloc: Global) -> Result<Names, NoMemory>
    ensures { IfOk result (λ names. names ≡ codes "g1" ∷ codes "g2" ∷ []) }
{
    let mut names = Names::create(alloc)?;
    names.intern(b"g1")?;
    names.intern(b"g2")?;
    names.settle();
    Ok(names)
}

// A write of this text to a file.
fn write_of(alloc: Global, dir: DirRef, kind: FileKind, text: &[u8]) -> Result<Op, NoMemory>
    ensures { IfOk result (λ op. op ≡ Write (File dir kind) text.now) }
{
    let copied = Vec::from_slice(alloc, text)?;
    let text = Bytes::from_vec(alloc, copied)?;
    Ok(Op::Write {
        path: PathRef::File(dir, kind),
        text,
    })
}

// The command that makes a group.
fn mkdir_of(dir: DirRef) -> Op
    ensures { result ≡ Mkdir (Dir dir) }
{
    Op::Mkdir {
        path: PathRef::Dir(dir),
    }
}

// The commands that make the groups, and a flush.
fn opening_ops(alloc: Global) -> Result<Ops, NoMemory>
    ensures { IfOk result (λ ops. ops ≡ opening_ops) }
{
    let mut ops = Ops::create(alloc);
    ops.push(write_of(alloc, DirRef::Root, FileKind::Schemata, b"L3:0=ff00;1=ff00")?)?;
    ops.push(mkdir_of(FIRST))?;
    ops.push(write_of(alloc, FIRST, FileKind::Schemata, b"L3:0=000f;1=000f")?)?;
    ops.push(write_of(alloc, FIRST, FileKind::Mode, b"exclusive")?)?;
    ops.push(mkdir_of(SECOND))?;
    ops.push(write_of(alloc, SECOND, FileKind::Schemata, b"L3:0=00f0;1=00f0")?)?;
    ops.push(write_of(alloc, FIRST, FileKind::Tasks, b"1,3")?)?;
    ops.push(write_of(alloc, SECOND, FileKind::Tasks, b"2,4")?)?;
    ops.push(Op::Flush { domain: None })?;
    Ok(ops)
}

/// The first phase, whose one thread makes the groups.
pub(crate) fn opening_phase(alloc: Global) -> Result<Phase, NoMemory>
    ensures { IfOk result (λ p. p ≡ record { order = []; threads = opening_ops ∷ [] }) }
{
    let ops = opening_ops(alloc)?;
    let mut threads = Vec::with_capacity(alloc, 1)?;
    threads.push(ops)?;
    Ok(Phase::new(Vec::new(alloc), threads))
}
