//! Which ops are commands, and which are accesses.
ghost use Rattle.std.specs.Prelude.{◌≡◌, ◌<◌, HoldsAt, length};
ghost use Rattle.journal_check.specs.OpKinds.{is_access_of};
ghost use Rattle.run_law.specs.Ops.{is_command};
ghost use Rattle.script_ops.specs.Values.{op_at};

use script_ops::{Op, Ops, Script};

/// Whether an op is a command.
pub fn is_command(op: &Op) -> bool
    ensures { result ≡ is_command op.now }
{
    !matches!(op, Op::Access { .. })
}

/// Whether the op of this number is a command.
pub(crate) fn is_command_at(ops: &Ops, i: usize) -> bool
    requires { i < length ops.now }
    ensures { HoldsAt (λ op. result ≡ is_command op) ops.now i }
{
    ops.access(i).is_none()
}

/// Whether the op of these numbers is an access; not so where there is no such op.
pub fn is_access_at(script: &Script, thread: u32, op: u32) -> bool
    ensures { result ≡ is_access_of (op_at script.now thread op) }
{
    match script.op(thread, op) {
        Some(op) => !is_command(op.get()),
        None => false,
    }
}
