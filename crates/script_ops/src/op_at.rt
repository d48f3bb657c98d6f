//! An op found by its number.
ghost use Rattle.std.specs.Prelude.{◌≡◌};
ghost use Rattle.script_ops.specs.declared.op.Op.TheVariants.{Access};

use crate::op::Op;
use std::marker::Model;

// An access as a copy, or a command where it stands.
#[derive(Drop)]
enum Found<'a> {
    Copied(Op),
    There(&'a Op),
}

/// An op found by its number. Contracts see the op.
#[derive(Drop)]
pub struct OpAt<'a> {
    found: Found<'a>,
}

impl<'a> Model for OpAt<'a> {
    ghost use Rattle.script_ops.specs.declared.op.Op.{Op};

    ghost Value = { Op };

    ghost use Rattle.script_ops.specs.FoundOps.{op_of};

    ghost view = { λ o. op_of o.found };
}

impl<'a> OpAt<'a> {
    /// An access.
    #[inline]
    pub(crate) fn of_access(task: u32, cpu: u8, addr: u64) -> OpAt<'a>
        ensures { result ≡ Access task cpu addr }
    {
        OpAt {
            found: Found::Copied(Op::Access { task, cpu, addr }),
        }
    }

    /// A command.
    #[inline]
    pub(crate) fn of_command(command: &'a Op) -> OpAt<'a>
        ensures { result ≡ command.now }
    {
        OpAt {
            found: Found::There(command),
        }
    }

    /// The op.
    #[inline]
    pub fn get(&self) -> &Op
        ensures { result.now ≡ self.now }
    {
        match &self.found {
            Found::Copied(op) => op,
            Found::There(op) => op,
        }
    }
}
