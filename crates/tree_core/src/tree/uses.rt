//! Who uses the ways of a cache.
ghost use Rattle.std.specs.Prelude.{◌≡◌, ◌<◌};
ghost use Rattle.tree_core.specs.Uses.{SameUse};
ghost use Rattle.tree_law.specs.Space.{region_mask, used_in};

use super::Tree;
use mode_rules::DomainUse;
use rc_base::Gid;

impl Tree {
    /// What all groups but one use of a domain's cache, and its region; all of them where none is named.
    pub(crate) fn used(&self, but: Option<Gid>, domain: u8) -> DomainUse
        requires exists { domain < self.now.machine.domains }
        ensures same { SameUse result (used_in self.now.machine self.now.state but domain) }
        ensures within { domain < 8 }
    {
        DomainUse {
            region: self.region_mask(domain),
            ..self.groups.others(but, domain)
        }
    }

    // The ways of a domain's region, and none where it has no region.
    fn region_mask(&self, domain: u8) -> u32
        requires { domain < self.now.machine.domains }
        ensures { result ≡ region_mask self.now.state.regions domain }
    {
        match self.region(domain) {
            Some(region) => region.mask,
            None => 0,
        }
    }
}
