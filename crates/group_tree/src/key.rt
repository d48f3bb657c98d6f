//! The keys by which groups are looked up.
ghost use Rattle.std.specs.Prelude.{◌≡◌, ◌+◌};
ghost use Rattle.group_tree.specs.Keys.{by_directory, control_key, gid_key, is_below, is_key, kind_number, monitor_key, name_number};

use crate::group::Group;
use crate::group_kind::GroupKind;
use path_names::NameId;
use rc_base::Gid;

/// Two numbers, of which the high one counts first. Groups have two kinds of key: one of the gid alone, and one of the
/// directory in which they stand and of their name in it.
#[derive(Clone, Copy, Debug, Default)]
pub(crate) struct Key {
    /// What counts first.
    pub(crate) high: u64,
    /// What counts where the high numbers are the same.
    pub(crate) low: u64,
}

impl Key {
    /// The key of a gid.
    pub(crate) fn of_gid(gid: Gid) -> Key
        ensures { result ≡ gid_key gid }
    {
        Key {
            high: 0,
            low: u64::from(gid.0),
        }
    }

    /// The key of a control group's name.
    pub(crate) fn of_control(name: NameId) -> Key
        ensures { result ≡ control_key name }
    {
        Key {
            high: 0,
            low: u64::from(name.0) + 1,
        }
    }

    /// The key of the name of a control group's monitor group.
    pub(crate) fn of_monitor(parent: Gid, name: NameId) -> Key
        ensures { result ≡ monitor_key parent name }
    {
        Key {
            high: u64::from(parent.0) + 1,
            low: u64::from(name.0) + 1,
        }
    }

    /// The key of a group's directory.
    pub(crate) fn of_directory(g: &Group) -> Key
        ensures { result ≡ by_directory g.now }
    {
        Key {
            high: kind_number(g.kind),
            low: name_number(g.name),
        }
    }

    /// Whether it is the same key.
    pub(crate) fn is(self, other: Key) -> bool
        ensures { result ≡ is_key self other }
    {
        self.high == other.high && self.low == other.low
    }

    /// Whether it comes before another key.
    pub(crate) fn is_below(self, other: Key) -> bool
        ensures { result ≡ is_below self other }
    {
        self.high < other.high || self.high == other.high && self.low < other.low
    }
}

// A number for each directory in which groups stand.
fn kind_number(kind: GroupKind) -> u64
    ensures { result ≡ kind_number kind }
{
    match kind {
        GroupKind::Control => 0,
        GroupKind::Monitor { parent } => u64::from(parent.0) + 1,
    }
}

// A number for each name, and for none.
fn name_number(name: Option<NameId>) -> u64
    ensures { result ≡ name_number name }
{
    match name {
        Some(name) => u64::from(name.0) + 1,
        None => 0,
    }
}
