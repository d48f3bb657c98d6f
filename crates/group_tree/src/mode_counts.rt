//! For each mode and way of a cache, how many groups in that mode have it.
ghost use Rattle.std.specs.Prelude.{◌≡◌, ◌<◌};
ghost use Rattle.std.specs.Option.{option_copied};
ghost use Rattle.cbm.specs.Masks.{IsUnion};
ghost use Rattle.group_tree.specs.Counts.{added_in, no_counts, removed_in, with_group, without_group, without_some};

use crate::group::Group;
use crate::way_counts::WayCounts;
use mode_rules::DomainUse;
use rc_base::Mode;

/// How many control groups have each way of a domain's cache, for each mode in which a group has ways.
#[derive(Clone, Copy, Debug)]
pub(crate) struct ModeCounts {
    /// Those that are shareable.
    pub(crate) shareable: WayCounts,
    /// Those that are exclusive.
    pub(crate) exclusive: WayCounts,
    /// Those that are pseudo-locked.
    pub(crate) locked: WayCounts,
}

impl ModeCounts {
    /// The counts of no groups.
    pub(crate) fn new() -> Self
        ensures { result ≡ no_counts }
    {
        ModeCounts {
            shareable: WayCounts::new(),
            exclusive: WayCounts::new(),
            locked: WayCounts::new(),
        }
    }

    /// Counts a group more.
    pub(crate) fn add(&mut self, g: &Group, domain: u8)
        requires { domain < 8 }
        ensures { self.new ≡ with_group g.now domain self.old }
    {
        if g.kind.is_control() {
            self.add_in(g.mode, g.mask_in(domain));
        }
    }

    /// Counts a group fewer.
    pub(crate) fn remove(&mut self, g: &Group, domain: u8)
        requires { domain < 8 }
        ensures { self.new ≡ without_group g.now domain self.old }
    {
        if g.kind.is_control() {
            self.remove_in(g.mode, g.mask_in(domain));
        }
    }

    // Counts a mask more in this mode.
    fn add_in(&mut self, mode: Mode, mask: u32)
        ensures { self.new ≡ added_in mode mask self.old }
    {
        match mode {
            Mode::Shareable => self.shareable.add(mask),
            Mode::Exclusive => self.exclusive.add(mask),
            Mode::Locked => self.locked.add(mask),
            Mode::LockSetup => {}
        }
    }

    // Counts a mask fewer in this mode.
    fn remove_in(&mut self, mode: Mode, mask: u32)
        ensures { self.new ≡ removed_in mode mask self.old }
    {
        match mode {
            Mode::Shareable => self.shareable.remove(mask),
            Mode::Exclusive => self.exclusive.remove(mask),
            Mode::Locked => self.locked.remove(mask),
            Mode::LockSetup => {}
        }
    }

    /// The counts without this group, where there is one.
    pub(crate) fn without(mut self, g: Option<&Group>, domain: u8) -> ModeCounts
        requires { domain < 8 }
        ensures { result ≡ without_some (option_copied g.entry) domain self }
    {
        if let Some(g) = g {
            self.remove(g, domain);
        }
        self
    }

    /// What the groups use of the cache, where other hardware uses these ways too.
    pub(crate) fn used(&self, hardware: u32) -> DomainUse
        ensures hardware { result.hardware ≡ hardware }
        ensures shared { IsUnion result.shared self.now.shareable.digits }
        ensures exclusive { IsUnion result.exclusive self.now.exclusive.digits }
        ensures region { IsUnion result.region self.now.locked.digits }
    {
        DomainUse {
            hardware,
            shared: self.shareable.union(),
            exclusive: self.exclusive.union(),
            region: self.locked.union(),
        }
    }
}
