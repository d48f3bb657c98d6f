//! The masks of a group.
ghost use Rattle.std.specs.Prelude.{◌≡◌, ◌<◌};
ghost use Rattle.std.specs.List.{All};
ghost use Rattle.pair_law.specs.State.{mask_in};
ghost use Rattle.pair_law.specs.commands.Schemata.{with_mask, with_masks};
ghost use Rattle.pair_text.specs.declared.side_mask.SideMask.{SideMask};

use pair_text::{PairGroup, Side, SideMask};

/// The mask of a group on a side in a domain.
pub(crate) fn mask_in(g: &PairGroup, side: Side, domain: u8) -> u32
    requires { domain < 8 }
    ensures { result ≡ mask_in side domain g.now }
{
    match side {
        Side::First => g.first[domain as usize],
        Side::Second => g.second[domain as usize],
    }
}

// Sets one mask of a group.
fn set(g: &mut PairGroup, a: &SideMask)
    requires { a.now.domain < 8 }
    ensures { g.new ≡ with_mask g.old a.now.side a.now.domain a.now.mask }
{
    match a.side {
        Side::First => g.first[a.domain as usize] = a.mask,
        Side::Second => g.second[a.domain as usize] = a.mask,
    }
}

/// Sets these masks of a group.
pub(crate) fn set_all(g: &mut PairGroup, all: &[SideMask])
    requires { All (λ (a : SideMask). a.domain < 8) all.now }
    ensures { g.new ≡ with_masks g.old all.now }
{
    for a in all {
        set(g, a);
    }
}
