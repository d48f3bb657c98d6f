//! Looking up groups by the indices.
ghost use Rattle.std.specs.Prelude.{◌≡◌, find, slice_get};
ghost use Rattle.std.specs.List.{position_or_len};
ghost use Rattle.std.specs.Option.{option_copied};
ghost use Rattle.group_tree.specs.Counts.{own_group};
ghost use Rattle.group_tree.specs.Keys.{by_directory, is_key};
ghost use Rattle.group_tree.specs.Records.{has_gid, is_control_named, is_monitor_named};

use super::Groups;
use crate::group::Group;
use crate::index::first_place;
use crate::key::Key;
use path_names::NameId;
use rc_base::Gid;

impl Groups {
    /// The place of the group with this gid, and the number of the groups where there is none.
    pub(super) fn place_of(&self, gid: Gid) -> usize
        ensures { result ≡ position_or_len (has_gid gid) self.now.groups }
    {
        first_place(self.gids.as_slice(), Key::of_gid(gid))
    }

    /// The place of the first group with this key of its directory, and the number of the groups where there is none.
    pub(super) fn place_named(&self, key: Key) -> usize
        ensures { result ≡ position_or_len (λ g. is_key key (by_directory g)) self.now.groups }
    {
        first_place(self.names.as_slice(), key)
    }

    /// The group at a place, and None past the last one.
    pub(super) fn at_place(&self, place: usize) -> Option<&Group>
        ensures { option_copied result ≡ slice_get self.now.groups place }
    {
        self.records.as_slice().get(place)
    }

    /// The control group of this name.
    pub(super) fn find_control(&self, name: NameId) -> Option<&Group>
        ensures { option_copied result ≡ find (is_control_named name) self.now.groups }
    {
        self.at_place(self.place_named(Key::of_control(name)))
    }

    /// The monitor group of this name of a control group.
    pub(super) fn find_monitor(&self, parent: Gid, name: NameId) -> Option<&Group>
        ensures { option_copied result ≡ find (is_monitor_named parent name) self.now.groups }
    {
        self.at_place(self.place_named(Key::of_monitor(parent, name)))
    }

    /// The group with this gid, where one is named and there.
    pub(super) fn find_own(&self, gid: Option<Gid>) -> Option<&Group>
        ensures { option_copied result ≡ own_group gid self.now.groups }
    {
        match gid {
            Some(gid) => self.get(gid),
            None => None,
        }
    }
}
