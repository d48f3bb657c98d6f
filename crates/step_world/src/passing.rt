//! Accesses that read their tag and go to their slice in one go, while nobody holds the tree.
ghost use Rattle.std.specs.Prelude.{◌≡◌, ℕ, IfSome, Some, slice_get};
ghost use Rattle.script_ops.specs.Values.{ops_of};
ghost use Rattle.script_ops.specs.declared.op.Op.TheVariants.{Access};
ghost use Rattle.step_world.specs.Passing.{CanPass, HasPassed, IsBefore};
ghost use Rattle.step_world.specs.Turns.{TakesTurn};
ghost use Rattle.step_world.specs.Worlds.{IsWorldOf, machine_of};

use crate::turn::Turn;
use crate::world::World;
use rc_base::Tag;
use script_ops::{Ops, Script};

// An access reads its tag, which is this one, and goes to its slice with it: two steps, and the tag is never stale.
fn pass(world: &mut World, script: &Script, turn: Turn, tag: &Tag, addr: u64)
    requires world { IsWorldOf script.now world.old }
    requires can { CanPass script.now world.old turn.thread turn.number addr tag.now }
    ensures world { IsWorldOf script.now world.new }
    ensures passed { HasPassed script.now turn.thread turn.number world.old world.new }
{
    let line = addr / 64;
    let slice = script.machine().line_slice(tag.domain, line);
    world.slices[slice].access(turn, tag, line);
    world.threads[turn.thread as usize].next = turn.number + 1;
}

// The address of the op of this number, where it is an access of this task on this CPU.
fn address_at(ops: &Ops, n: u32, task: u32, cpu: u8) -> Option<u64>
    ensures is { IfSome result (λ addr. slice_get ops.now n ≡ Some (Access task cpu addr)) }
    ensures there { (addr : ℕ) → slice_get ops.now n ≡ Some (Access task cpu addr) → result ≡ Some addr }
{
    match ops.access(n as usize) {
        Some((of, on, addr)) if of == task && on == cpu => Some(addr),
        _ => None,
    }
}

/// The accesses of a task on a CPU that come next pass, each with the same tag: the tree stays as it is meanwhile.
pub(crate) fn pass_all(world: &mut World, script: &Script, t: u32, ops: &Ops, task: u32, cpu: u8)
    requires world { IsWorldOf script.now world.old }
    requires ops { ops.now ≡ ops_of script.now t }
    requires before { IsBefore script.now t task cpu (machine_of world.old) }
    ensures world { IsWorldOf script.now world.new }
    ensures turn { TakesTurn script.now t (machine_of world.old) (machine_of world.new) }
{
    let tag = world.tree.resolve(task, cpu);
    let mut n = world.threads[t as usize].next;
    while let Some(addr) = address_at(ops, n, task, cpu) {
        pass(
            world,
            script,
            Turn {
                thread: t,
                number: n,
            },
            &tag,
            addr,
        );
        n += 1;
    }
}
