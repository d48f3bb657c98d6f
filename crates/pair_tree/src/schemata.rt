//! A write of `schemata`.
ghost use Rattle.std.specs.Prelude.{◌≡◌, ◌≢◌, ◌<◌, Ok, length};
ghost use Rattle.std.specs.List.{All};
ghost use Rattle.pair_law.specs.Sound.{IsSound};
ghost use Rattle.pair_law.specs.commands.Schemata as schemata;
ghost use Rattle.pair_law.specs.commands.Schemata.{schemata_read};
ghost use Rattle.pair_text.specs.Values.{AreMachines};
ghost use Rattle.pair_text.specs.declared.side_mask.SideMask.{SideMask};
ghost use Rattle.pair_tree.specs.Changes.{MakesUnless};
ghost use Rattle.pair_tree.specs.Places.{At};
ghost use Rattle.pair_tree.specs.Tables.{state_of};

use crate::machines::Machines;
use crate::masks::set_all;
use crate::reading::read_masks;
use crate::tables::Tables;
use command_parts::text_refusal;
use pair_text::SideMask;
use rc_base::Reply;

impl Tables {
    // Takes the masks of a text for the group at a place, where nothing is against them.
    fn take_masks(&mut self, m: &Machines, place: usize, all: &[SideMask]) -> Reply
        requires sound { IsSound m.now (state_of self.old) }
        requires within { place < length self.old.groups.items }
        requires exist { All (λ (a : SideMask). a.domain < 8) all.now }
        ensures { At self.old.groups.items place (λ g.
            MakesUnless (state_of self.old) (schemata.refusal m.now (state_of self.old) g (Ok all.now))
            (schemata.accepted (state_of self.old) g (Ok all.now)) (state_of self.new) result) }
    {
        if let Some(reply) = self.against_masks(m, &self.groups[place], all) {
            return reply;
        }
        set_all(&mut self.groups[place], all);
        Reply::Ok
    }

    /// Writes the masks of the group at a place.
    pub(crate) fn write_schemata(&mut self, m: &Machines, place: usize, text: &[u8]) -> Reply
        requires machines { AreMachines m.now }
        requires sound { IsSound m.now (state_of self.old) }
        requires within { place < length self.old.groups.items }
        ensures { At self.old.groups.items place (λ g.
            MakesUnless (state_of self.old) (schemata.refusal m.now (state_of self.old) g (schemata_read m.now text.now))
            (schemata.accepted (state_of self.old) g (schemata_read m.now text.now)) (state_of self.new) result) }
    {
        match read_masks(m, text) {
            Ok(all) => self.take_masks(m, place, all.as_slice()),
            Err(fault) => text_refusal(fault),
        }
    }
}
