//! The file `bit_usage`.
ghost use Rattle.std.specs.Prelude.{◌≡◌, ◌+◌, ◌<◌, ◌≤◌, ◌++◌, None, length, map};
ghost use Rattle.std.specs.List.{range_with_len};
ghost use Rattle.bit_usage.specs.Usage.{usage_text};
ghost use Rattle.cbm.specs.Masks.{IsUnion};
ghost use Rattle.file_view.specs.MachineFiles.{bit_usage_text};
ghost use Rattle.group_tree.specs.Others.{masks_of_others};
ghost use Rattle.rc_base.specs.declared.names.Mode.TheVariants.{Exclusive, Shareable};
ghost use Rattle.tree_law.specs.Space.{region_mask, used_in};

use arrayvec::ArrayVec;
use bit_usage::{USAGE_MAX, print};
use mode_rules::DomainUse;
use rc_base::TextBuf;
use tree_core::Tree;

// Who uses the ways of each cache.
type Uses = ArrayVec<DomainUse, 8>;

// The ways of a domain's region, and none where it has no region.
fn region_mask(tree: &Tree, domain: u8) -> u32
    requires { domain < tree.now.machine.domains }
    ensures { result ≡ region_mask tree.now.state.regions domain }
{
    match tree.region(domain) {
        Some(region) => region.mask,
        None => 0,
    }
}

// Who uses the ways of a domain's cache.
fn use_of(tree: &Tree, domain: u8) -> DomainUse
    requires exists { domain < tree.now.machine.domains }
    requires within { domain < 8 }
    ensures hardware { result.hardware ≡ tree.now.machine.shareable }
    ensures shared { IsUnion result.shared (masks_of_others None Shareable domain tree.now.state.groups) }
    ensures exclusive { IsUnion result.exclusive (masks_of_others None Exclusive domain tree.now.state.groups) }
    ensures region { result.region ≡ region_mask tree.now.state.regions domain }
{
    DomainUse {
        region: region_mask(tree, domain),
        ..tree.groups().others(None, domain)
    }
}

// Who uses the ways of each cache, in the order of the domains.
fn uses_of(tree: &Tree) -> Uses
    ensures few { length result.items ≤ 8 }
    ensures text { usage_text tree.now.machine.ways result.items
        ≡ usage_text tree.now.machine.ways (map (used_in tree.now.machine tree.now.state None) (range_with_len 0 tree.now.machine.domains)) }
{
    let mut all = Uses::new();
    for domain in 0..tree.machine().domains {
        all.push(use_of(tree, domain));
    }
    all
}

/// Adds the text of `bit_usage`.
pub(crate) fn push_usage(tree: &Tree, out: &mut TextBuf)
    requires room { USAGE_MAX ≤ out.old.spare }
    ensures bytes { out.new.bytes ≡ out.old.bytes ++ bit_usage_text tree.now.machine tree.now.state }
    ensures spare { out.new.spare + length (bit_usage_text tree.now.machine tree.now.state) ≡ out.old.spare }
{
    print(uses_of(tree).as_slice(), tree.machine().ways, out);
    out.push(b'\n');
}
