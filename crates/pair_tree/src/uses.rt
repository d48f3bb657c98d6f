//! Who uses the ways of a cache.
ghost use Rattle.std.specs.Prelude.{◌≡◌, ◌<◌, is_some};
ghost use Rattle.pair_law.specs.Others.{is_other_in, masks_of, masks_of_others, sides_beside, used_in};
ghost use Rattle.pair_tree.specs.Tables.{state_of};
ghost use Rattle.tree_law.specs.Space.{union_of};

use crate::machines::Machines;
use crate::masks::mask_in;
use crate::tables::Tables;
use mode_rules::DomainUse;
use pair_text::{PairGroup, Side};
use rc_base::{Gid, Mode};

// The groups in a mode, but for one; all of them where none is named.
#[derive(Clone, Copy, Drop)]
struct Others {
    // The group that is none of them.
    but: Option<Gid>,
    // The mode.
    mode: Mode,
}

// Whether a group is one of these.
fn is_other_in(others: Others, g: &PairGroup) -> bool
    ensures { result ≡ is_other_in others.but others.mode g.now }
{
    match others.but {
        Some(gid) => gid.0 != g.gid.0 && others.mode == g.mode,
        None => others.mode == g.mode,
    }
}

// The ways that a group has in the caches of a side, which both sides have without an L2.
fn ways_beside(m: &Machines, g: &PairGroup, side: Side, domain: u8) -> u32
    requires { domain < 8 }
    ensures { result ≡ union_of (masks_of (sides_beside m.now.l2 side) domain g.now) }
{
    if m.are_levels() {
        mask_in(g, side, domain)
    } else {
        mask_in(g, Side::First, domain) | mask_in(g, Side::Second, domain)
    }
}

impl Tables {
    // The ways of these groups in a domain of a side.
    fn union_of_others(&self, m: &Machines, others: Others, side: Side, domain: u8) -> u32
        requires { domain < 8 }
        ensures { result ≡ union_of (masks_of_others m.now (state_of self.now) others.but others.mode (record { side = side; domain = domain })) }
    {
        let mut ways = 0;
        for g in &self.groups {
            if is_other_in(others, g) {
                ways |= ways_beside(m, g, side, domain);
            }
        }
        ways
    }

    /// What all groups but one use of a domain of a side; all of them where none is named.
    pub(crate) fn used(&self, m: &Machines, but: Option<Gid>, side: Side, domain: u8) -> DomainUse
        requires { domain < 8 }
        ensures { result ≡ used_in m.now (state_of self.now) but (record { side = side; domain = domain }) }
    {
        let shareable = Others {
            but,
            mode: Mode::Shareable,
        };
        let exclusive = Others {
            but,
            mode: Mode::Exclusive,
        };
        DomainUse {
            hardware: m.side(side).shareable,
            shared: self.union_of_others(m, shareable, side, domain),
            exclusive: self.union_of_others(m, exclusive, side, domain),
            region: 0,
        }
    }
}
