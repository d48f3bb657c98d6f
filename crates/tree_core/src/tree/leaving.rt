//! Leaving pseudo-locksetup: what stands against the masks that a group kept.
ghost use Rattle.std.specs.Prelude.{◌≡◌, ◌<◌, Some};
ghost use Rattle.std.specs.List.{range_with_len};
ghost use Rattle.std.specs.Option.{option_map};
ghost use Rattle.mode_rules.specs.Overlaps.{leaving_overlap};
ghost use Rattle.group_tree.specs.Records.{mask_in};
ghost use Rattle.command_parts.specs.Replies.{reply_to};
ghost use Rattle.tree_law.specs.Space.{used_in};
ghost use Rattle.tree_law.specs.commands.Mode.{against_masks};
ghost use Rattle.tree_law.specs.commands.Schemata.{against_overlap};

use super::Tree;
use crate::masks::mask_in;
use command_parts::overlap_refusal;
use group_tree::Group;
use mode_rules::may_leave_setup;
use rc_base::Reply;

impl Tree {
    /// The refusal in the first domain, rising, in which something stands against the mask of a group that leaves
    /// pseudo-locksetup.
    pub(crate) fn against_kept_masks(&self, group: &Group) -> Option<Reply>
        ensures { result ≡ option_map reply_to
            (against_masks self.now.machine self.now.state group.now (range_with_len 0 self.now.machine.domains)) }
    {
        for domain in 0..self.machine.domains {
            let against = self.against_kept_mask(group, domain);
            if against.is_some() {
                return against;
            }
        }
        None
    }

    // The refusal in one domain.
    fn against_kept_mask(&self, group: &Group, domain: u8) -> Option<Reply>
        requires exists { domain < self.now.machine.domains }
        ensures { result ≡ option_map reply_to (against_overlap domain
            (leaving_overlap (mask_in domain group.now) (used_in self.now.machine self.now.state (Some group.now.gid) domain))) }
    {
        let used = self.used(Some(group.gid), domain);
        match may_leave_setup(mask_in(&group.masks, domain), &used) {
            Ok(()) => None,
            Err(overlap) => Some(overlap_refusal(domain, overlap)),
        }
    }
}
