//! The write of `schemata` that locks a region.
ghost use Rattle.std.specs.Prelude.{◌≡◌, ◌<◌, ◌≤◌, Ok, Some, [], ◌∷◌, find, replicate, slice_set};
ghost use Rattle.group_tree.specs.Records.{has_gid};
ghost use Rattle.mode_rules.specs.Overlaps.{write_overlap};
ghost use Rattle.rc_base.specs.declared.names.Mode.TheVariants as modes;
ghost use Rattle.script_ops.specs.declared.limits.TheConstants.{MOST_WEIGHT};
ghost use Rattle.tree_law.specs.Sound.{IsSound};
ghost use Rattle.tree_law.specs.Space.{used_in};
ghost use Rattle.tree_law.specs.commands.Schemata.{lock, locked as locked_record, with_region};

use super::Tree;
use crate::classes::give;
use crate::follow::{After, Follow, push_only};
use group_tree::Group;
use rc_base::Mode;
use schemata_text::Assignment;

impl Tree {
    /// Locks the region of a group in pseudo-locksetup, which leaves a sound tree: the group is pseudo-locked from then on, its
    /// other masks are gone, and its class is given back (kernel documentation, "Cache Pseudo-Locking").
    pub(crate) fn lock(&mut self, group: &Group, a: &Assignment, follows: &mut After)
        requires there { find (has_gid group.now.gid) self.old.state.groups ≡ Some group.now }
        requires setup { group.now.mode ≡ modes.LockSetup }
        requires exists { a.now.domain < self.old.machine.domains }
        requires free { write_overlap modes.LockSetup a.now.mask
            (used_in self.old.machine self.old.state (Some group.now.gid) a.now.domain) ≡ Ok tt }
        requires locks { self.old.state.locks < self.old.epoch }
        requires epoch { self.old.epoch ≤ MOST_WEIGHT }
        requires sound { IsSound self.old.machine (with_region self.old.state group.now a.now) }
        requires nothing { follows.old.items ≡ [] }
        ensures tree { self.new ≡ record self.old { state = with_region self.old.state group.now a.now } }
        ensures after { follows.new.items ≡ lock self.old.state (a.now ∷ []) }
    {
        let region = self.regions.place(group.gid, a.domain, a.mask);
        give(&mut self.classes, group.class);
        self.groups.replace(locked(group, a));
        push_only(
            follows,
            Follow::Lock {
                domain: a.domain,
                mask: a.mask,
                first_line: region.first_line,
            },
        );
    }
}

// The record of a group that becomes pseudo-locked.
fn locked(group: &Group, a: &Assignment) -> Group
    requires { a.now.domain < 8 }
    ensures whole { result ≡ locked_record group.now a.now }
{
    Group {
        mode: Mode::Locked,
        class: None,
        masks: only_mask(a.domain, a.mask),
        ..*group
    }
}

// This mask in one domain, and 0 in the others.
fn only_mask(domain: u8, mask: u32) -> [u32; 8]
    requires { domain < 8 }
    ensures masks { result ≡ slice_set (replicate 8 0) domain mask }
{
    let mut masks = [0; 8];
    masks[domain as usize] = mask;
    masks
}
