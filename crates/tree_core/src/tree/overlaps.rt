//! What stands against the masks of a group.
ghost use Rattle.std.specs.Prelude.{◌≡◌, ◌<◌, false};
ghost use Rattle.std.specs.List.{All, list_any, range_with_len};
ghost use Rattle.std.specs.Option.{option_map};
ghost use Rattle.schemata_text.specs.declared.assignment.Assignment.{Assignment};
ghost use Rattle.command_parts.specs.Replies.{reply_to};
ghost use Rattle.tree_law.specs.commands.Mode.{overlaps_some};
ghost use Rattle.tree_law.specs.commands.Schemata.{against_entries, against_entry, is_locked};

use super::Tree;
use crate::masks::mask_in;
use command_parts::overlap_refusal;
use group_tree::Group;
use mode_rules::{may_turn_exclusive, may_write_mask};
use rc_base::Reply;
use schemata_text::Assignment;

impl Tree {
    /// The refusal of the first of these assignments that something stands against. The group is not pseudo-locked.
    pub(crate) fn against_masks(&self, group: &Group, all: &[Assignment]) -> Option<Reply>
        requires unlocked { is_locked group.now.mode ≡ false }
        requires exist { All (λ (a : Assignment). a.domain < self.now.machine.domains) all.now }
        ensures { result ≡ option_map reply_to (against_entries self.now.machine self.now.state group.now all.now) }
    {
        for a in all {
            let against = self.against_mask(group, a);
            if against.is_some() {
                return against;
            }
        }
        None
    }

    // The refusal of one assignment.
    fn against_mask(&self, group: &Group, a: &Assignment) -> Option<Reply>
        requires unlocked { is_locked group.now.mode ≡ false }
        requires exists { a.now.domain < self.now.machine.domains }
        ensures { result ≡ option_map reply_to (against_entry self.now.machine self.now.state group.now a.now) }
    {
        let used = self.used(Some(group.gid), a.domain);
        match may_write_mask(group.mode, a.mask, &used) {
            Ok(()) => None,
            Err(overlap) => Some(overlap_refusal(a.domain, overlap)),
        }
    }

    /// Whether in some domain the mask of a group overlaps a shareable or exclusive group's or a shareable bit.
    pub(crate) fn overlaps_some(&self, group: &Group) -> bool
        ensures { result
            ≡ list_any (overlaps_some self.now.machine self.now.state group.now) (range_with_len 0 self.now.machine.domains) }
    {
        for domain in 0..self.machine.domains {
            if self.overlaps_in(group, domain) {
                return true;
            }
        }
        false
    }

    // Whether it overlaps so in one domain.
    fn overlaps_in(&self, group: &Group, domain: u8) -> bool
        requires { domain < self.now.machine.domains }
        ensures { result ≡ overlaps_some self.now.machine self.now.state group.now domain }
    {
        let used = self.used(Some(group.gid), domain);
        !may_turn_exclusive(mask_in(&group.masks, domain), &used)
    }
}
