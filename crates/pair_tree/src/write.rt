//! Writes and reads of the files of a group.
ghost use Rattle.std.specs.Prelude.{◌≡◌, ◌<◌, length};
ghost use Rattle.pair_law.specs.Sound.{IsSound};
ghost use Rattle.pair_law.specs.State.{group_named};
ghost use Rattle.pair_law.specs.Steps.{read_refusal};
ghost use Rattle.pair_text.specs.Values.{AreMachines};
ghost use Rattle.pair_text.specs.declared.op.PairOp.TheVariants.{Write};
ghost use Rattle.pair_tree.specs.Changes.{Takes, WritesFile};
ghost use Rattle.pair_tree.specs.Places.{At};
ghost use Rattle.pair_tree.specs.Tables.{state_of};
ghost use Rattle.tree_law.specs.Refusals.{reply_of};

use crate::lookup::place_of;
use crate::machines::Machines;
use crate::tables::Tables;
use pair_text::PairFile;
use path_names::FileKind;
use rc_base::{Reply, Why};

impl Tables {
    // Writes a file of the group at a place. No other file of a group is written.
    fn write_at(&mut self, m: &Machines, place: usize, kind: FileKind, text: &[u8]) -> Reply
        requires machines { AreMachines m.now }
        requires sound { IsSound m.now (state_of self.old) }
        requires within { place < length self.old.groups.items }
        ensures { At self.old.groups.items place (λ g. WritesFile m.now (state_of self.old) g kind text.now (state_of self.new) result) }
    {
        match kind {
            FileKind::Schemata => self.write_schemata(m, place, text),
            FileKind::Mode => self.write_mode(m, place, text),
            FileKind::Tasks => self.write_tasks(place, text),
            _ => Reply::Ok,
        }
    }

    /// Writes a file.
    pub(crate) fn write(&mut self, m: &Machines, file: &PairFile, text: &[u8]) -> Reply
        requires machines { AreMachines m.now }
        requires sound { IsSound m.now (state_of self.old) }
        ensures { Takes m.now (state_of self.old) (Write file.now text.now) (state_of self.new) result }
    {
        match place_of(&self.groups, &file.group) {
            Some(place) => self.write_at(m, place, file.kind, text),
            None => Reply::refused(Why::NoSuchPath, 0),
        }
    }

    /// The reply to a read.
    pub(crate) fn read(&self, file: &PairFile) -> Reply
        ensures { result ≡ reply_of (read_refusal (group_named (state_of self.now) file.now.group)) }
    {
        match place_of(&self.groups, &file.group) {
            Some(_) => Reply::Ok,
            None => Reply::refused(Why::NoSuchPath, 0),
        }
    }
}
