//! Taking a command.
ghost use Rattle.std.specs.Prelude.{◌≡◌, ◌+◌, ◌<◌, ◌^◌};
ghost use Rattle.pair_law.specs.Sound.{IsSound};
ghost use Rattle.pair_text.specs.Values.{AreMachines, HasShortName};
ghost use Rattle.pair_tree.specs.Changes.{Takes};
ghost use Rattle.pair_tree.specs.Tables.{state_of};

use crate::machines::Machines;
use crate::tables::Tables;
use pair_text::PairOp;
use rc_base::Reply;

impl Tables {
    /// Takes a command: its reply.
    pub(crate) fn take(&mut self, m: &Machines, op: &PairOp) -> Reply
        requires machines { AreMachines m.now }
        requires sound { IsSound m.now (state_of self.old) }
        requires short { HasShortName op.now }
        requires gids { self.old.next_gid + 1 < 2 ^ 32 }
        ensures { Takes m.now (state_of self.old) op.now (state_of self.new) result }
    {
        match op {
            PairOp::Mkdir { name } => self.mkdir(m, name.as_slice()),
            PairOp::Rmdir { name } => self.rmdir(name.as_slice()),
            PairOp::Write { file, text } => self.write(m, file, text.as_slice()),
            PairOp::Read { file } => self.read(file),
            PairOp::Flush | PairOp::Use { .. } => Reply::Ok,
        }
    }
}
