//! The masks of a group, one for each domain.
ghost use Rattle.std.specs.Prelude.{◌≡◌, ◌<◌, ◌^◌, length, slice_index, slice_set};
ghost use Rattle.std.specs.List.{All};
ghost use Rattle.schemata_text.specs.declared.assignment.Assignment.{Assignment};
ghost use Rattle.tree_law.specs.commands.Schemata.{assigned};

use schemata_text::Assignment;

/// The mask of a domain.
pub(crate) fn mask_in(masks: &[u32], domain: u8) -> u32
    requires { domain < length masks.now }
    ensures mask { result ≡ slice_index masks.now domain }
    ensures small { result < 2 ^ 32 }
{
    masks[domain as usize]
}

// Sets the mask of one domain.
fn set(masks: &mut [u32], domain: u8, mask: u32)
    requires { domain < length masks.old }
    ensures masks { masks.new ≡ slice_set masks.old domain mask }
    ensures small { mask < 2 ^ 32 }
{
    masks[domain as usize] = mask;
}

/// Sets the masks of the domains that are named.
pub(crate) fn assign(masks: &mut [u32], all: &[Assignment])
    requires exist { All (λ (a : Assignment). a.domain < length masks.old) all.now }
    ensures masks { masks.new ≡ assigned masks.old all.now }
    ensures small { All (λ (a : Assignment). a.mask < 2 ^ 32) all.now }
{
    for a in all {
        set(masks, a.domain, a.mask);
    }
}
