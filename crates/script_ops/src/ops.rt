//! The ops of a thread.
ghost use Rattle.std.specs.Prelude.{◌≡◌, ℕ, ◌<◌, [], ◌∷◌, ◌++◌, IfSome, OnOk, OnErr, HoldsAt, Some, false, length, slice_get};
ghost use Rattle.script_ops.specs.Slots.{commands_in, is_access};
ghost use Rattle.script_ops.specs.declared.op.Op.TheVariants.{Access};

use crate::op::Op;
use crate::op_at::OpAt;
use crate::slot::Slot;
use rc_base::NoMemory;
use std::alloc::Global;
use std::marker::Model;

/// The ops of a thread. Contracts see the list of them. An access takes 16 bytes, and a command has its own place beside.
#[derive(Drop)]
pub struct Ops {
    slots: Vec<Slot>,
    commands: Vec<Op>,
}

impl Model for Ops {
    ghost use Rattle.std.specs.Prelude.{List};
    ghost use Rattle.script_ops.specs.declared.op.Op.{Op};

    ghost Value = { List Op };

    ghost use Rattle.script_ops.specs.Slots.{AreSlots, ops_in};

    ghost view = { λ o. ops_in o.commands.items o.slots.items };

    ghost invariant = { λ o. AreSlots o.commands.items o.slots.items };
}

impl Ops {
    /// No ops.
    pub fn create(alloc: Global) -> Ops
        ensures { result ≡ [] }
    {
        Ops {
            slots: Vec::new(alloc),
            commands: Vec::new(alloc),
        }
    }

    /// How many there are.
    #[inline]
    pub fn len(&self) -> usize
        ensures { result ≡ length self.now }
    {
        self.slots.len()
    }

    /// The op of this number.
    #[inline]
    pub fn at(&self, i: usize) -> OpAt<'_>
        requires { i < length self.now }
        ensures { HoldsAt (λ op. result ≡ op) self.now i }
    {
        match self.slots[i] {
            Slot::Access { cpu, task, addr } => OpAt::of_access(task, cpu, addr),
            Slot::Command(k) => OpAt::of_command(&self.commands[k]),
        }
    }

    /// The op of this number, or None where there is none.
    #[inline]
    pub fn get(&self, i: usize) -> Option<OpAt<'_>>
        ensures { result ≡ slice_get self.now i }
    {
        if i < self.slots.len() {
            Some(self.at(i))
        } else {
            None
        }
    }

    /// The task, the CPU and the address of the op of this number, where it is an access.
    #[inline]
    pub fn access(&self, i: usize) -> Option<(u32, u8, u64)>
        ensures is { IfSome result (λ a. slice_get self.now i ≡ Some (Access a.0 a.1 a.2)) }
        ensures there { (task cpu addr : ℕ) → slice_get self.now i ≡ Some (Access task cpu addr) → result ≡ Some (task, cpu, addr) }
    {
        match self.slots.get(i) {
            Some(Slot::Access { cpu, task, addr }) => Some((*task, *cpu, *addr)),
            _ => None,
        }
    }

    /// Its commands alone, in order.
    #[inline]
    pub fn commands(&self) -> &[Op]
        ensures { result.now ≡ commands_in self.now }
    {
        self.commands.as_slice()
    }

    /// Takes room for so many accesses more.
    pub fn reserve(&mut self, more: usize) -> Result<(), NoMemory>
        ensures { self.new ≡ self.old }
    {
        self.slots.reserve(more)?;
        Ok(())
    }

    /// Adds an access.
    #[inline]
    pub fn push_access(&mut self, task: u32, cpu: u8, addr: u64) -> Result<(), NoMemory>
        ensures ok { OnOk result (self.new ≡ self.old ++ Access task cpu addr ∷ []) }
        ensures err { OnErr result (self.new ≡ self.old) }
    {
        self.slots.push(Slot::Access { cpu, task, addr })?;
        Ok(())
    }

    // Adds a command. It takes the room for both places first, so that no command is without a slot.
    fn push_command(&mut self, op: Op) -> Result<(), NoMemory>
        requires { is_access op ≡ false }
        ensures ok { OnOk result (self.new ≡ self.old ++ op ∷ []) }
        ensures err { OnErr result (self.new ≡ self.old) }
    {
        let number = self.commands.len();
        self.slots.reserve(1)?;
        self.commands.push(op)?;
        self.slots.push_reserved(Slot::Command(number));
        Ok(())
    }

    /// Adds an op.
    #[inline]
    pub fn push(&mut self, op: Op) -> Result<(), NoMemory>
        ensures ok { OnOk result (self.new ≡ self.old ++ op ∷ []) }
        ensures err { OnErr result (self.new ≡ self.old) }
    {
        match op {
            Op::Access { task, cpu, addr } => self.push_access(task, cpu, addr),
            command => self.push_command(command),
        }
    }
}
