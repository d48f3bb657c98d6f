//! What stands against the masks of a group.
ghost use Rattle.std.specs.Prelude.{◌≡◌, ◌≢◌, ◌<◌, ◌≤◌};
ghost use Rattle.std.specs.List.{All, list_any};
ghost use Rattle.std.specs.Option.{option_map};
ghost use Rattle.command_parts.specs.Replies.{reply_to};
ghost use Rattle.pair_law.specs.Others.{places_of, places_on};
ghost use Rattle.pair_law.specs.commands.Mode.{overlaps_some};
ghost use Rattle.pair_law.specs.commands.Schemata.{against_mask, against_masks};
ghost use Rattle.pair_text.specs.Values.{side_machine};
ghost use Rattle.pair_text.specs.declared.side_mask.SideMask.{SideMask};
ghost use Rattle.pair_tree.specs.Tables.{state_of};
ghost use Rattle.rc_base.specs.declared.names.Mode.TheVariants as modes;

use crate::machines::Machines;
use crate::masks::mask_in;
use crate::tables::Tables;
use command_parts::overlap_refusal;
use mode_rules::{may_turn_exclusive, may_write_mask};
use pair_text::{PairGroup, Side, SideMask};
use rc_base::Reply;

impl Tables {
    /// The refusal of the first of these masks that something stands against.
    pub(crate) fn against_masks(
        &self,
        m: &Machines,
        g: &PairGroup,
        all: &[SideMask],
    ) -> Option<Reply>
        requires unlocked { g.now.mode ≢ modes.Locked }
        requires exist { All (λ (a : SideMask). a.domain < 8) all.now }
        ensures { result ≡ option_map reply_to (against_masks m.now (state_of self.now) g.now all.now) }
    {
        for a in all {
            let against = self.against_mask(m, g, a);
            if against.is_some() {
                return against;
            }
        }
        None
    }

    // The refusal of one mask.
    fn against_mask(&self, m: &Machines, g: &PairGroup, a: &SideMask) -> Option<Reply>
        requires unlocked { g.now.mode ≢ modes.Locked }
        requires exists { a.now.domain < 8 }
        ensures { result ≡ option_map reply_to (against_mask m.now (state_of self.now) g.now a.now) }
    {
        let used = self.used(m, Some(g.gid), a.side, a.domain);
        match may_write_mask(g.mode, a.mask, &used) {
            Ok(()) => None,
            Err(overlap) => Some(overlap_refusal(a.domain, overlap)),
        }
    }

    /// Whether in some domain of a side the mask of a group overlaps another group's or a shareable bit.
    pub(crate) fn overlaps_some(&self, m: &Machines, g: &PairGroup) -> bool
        ensures { result ≡ list_any (overlaps_some m.now (state_of self.now) g.now) (places_of m.now) }
    {
        self.overlaps_on(m, g, Side::First) || self.overlaps_on(m, g, Side::Second)
    }

    // Whether it overlaps so on a side.
    fn overlaps_on(&self, m: &Machines, g: &PairGroup, side: Side) -> bool
        ensures { result ≡ list_any (overlaps_some m.now (state_of self.now) g.now) (places_on m.now side) }
    {
        for domain in 0..m.domains(side) {
            if self.overlaps_in(m, g, side, domain) {
                return true;
            }
        }
        false
    }

    // Whether it overlaps so in one domain.
    fn overlaps_in(&self, m: &Machines, g: &PairGroup, side: Side, domain: u8) -> bool
        requires { domain < 8 }
        ensures { result ≡ overlaps_some m.now (state_of self.now) g.now (record { side = side; domain = domain }) }
    {
        let used = self.used(m, Some(g.gid), side, domain);
        !may_turn_exclusive(mask_in(g, side, domain), &used)
    }
}
