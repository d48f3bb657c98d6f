//! Editing a list of records in which gids differ.
ghost use Rattle.std.specs.Prelude.{◌≡◌, ◌<◌, length, Some, find, true};
ghost use Rattle.std.specs.List.{HoldsAt};
ghost use Rattle.group_tree.specs.Lists.{GidsDiffer, replaced, without};
ghost use Rattle.group_tree.specs.Records.{has_gid};

use crate::group::Group;
use crate::groups::PLACES;
use arrayvec::ArrayVec;
use rc_base::Gid;

/// Puts a record in place of the one with its gid, which is at this place, and returns that one.
pub(crate) fn put(groups: &mut ArrayVec<Group, PLACES>, place: usize, g: Group) -> Group
    requires within { place < length groups.old.items }
    requires there { HoldsAt (λ old. has_gid g.gid old ≡ true) groups.old.items place }
    requires gids_differ { GidsDiffer groups.old.items }
    ensures replaced { groups.new.items ≡ replaced g groups.old.items }
    ensures old { find (has_gid g.gid) groups.old.items ≡ Some result }
{
    let old = groups[place];
    groups[place] = g;
    old
}

/// Takes out the record with this gid, which is at this place, and returns it.
pub(crate) fn take_out(groups: &mut ArrayVec<Group, PLACES>, place: usize, gid: Gid) -> Group
    requires within { place < length groups.old.items }
    requires there { HoldsAt (λ old. has_gid gid old ≡ true) groups.old.items place }
    requires gids_differ { GidsDiffer groups.old.items }
    ensures without { groups.new.items ≡ without gid groups.old.items }
    ensures old { find (has_gid gid) groups.old.items ≡ Some result }
{
    groups.remove(place)
}
