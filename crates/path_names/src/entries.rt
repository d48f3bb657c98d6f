//! The fixed entries of the directories.
ghost use Rattle.std.specs.Prelude.{◌≡◌, ◌≤◌};
ghost use Rattle.path_names.specs.PathTable.{domain_name, entry_among, entry_of, fixed_in, named};
ghost use Rattle.rc_base.specs.Texts.{is_text};
ghost use Rattle.path_names.specs.declared.dirs.DirRef.TheVariants.{MonData};

use crate::dirs::{DirRef, Holder};
use crate::fixed::{domain_name, fixed_in};
use crate::names::NameId;
use crate::path_ref::PathRef;
use rc_base::is_text;

/// What a name that is no fixed entry stands for: a group where the directory holds groups, and else nothing.
pub(crate) fn named(dir: DirRef, name: NameId) -> PathRef
    ensures { result ≡ named dir name }
{
    match dir {
        DirRef::Root => PathRef::Dir(DirRef::Ctrl(name)),
        DirRef::MonGroups(owner) => PathRef::Dir(DirRef::Mon(owner, name)),
        _ => PathRef::Free(dir, name),
    }
}

/// The fixed entry of this name.
#[tactic(auto, using(crate::proofs::FixedEntries::fixed), unfolding(crate::specs::PathTable::entry_of))]
pub(crate) fn entry(dir: DirRef, name: &[u8], domains: u8) -> Option<PathRef>
    requires { domains ≤ 8 }
    ensures { result ≡ entry_of domains dir name.now }
{
    match dir {
        DirRef::MonData(holder) => domain_entry(holder, name, domains),
        _ => fixed_entry(dir, name),
    }
}

// Whether a name is this one. Most differ in length, which is seen without a look at the bytes.
#[tactic(auto, using(crate::proofs::FixedEntries::is_text_lengths))]
fn is_name(name: &[u8], known: &[u8]) -> bool
    ensures { result ≡ is_text name.now known.now }
{
    name.len() == known.len() && is_text(name, known)
}

/// The fixed entry of this name in a directory, its domains aside. None of a name that a group may have, or that nothing has (kernel
/// documentation, "Info directory", "Resource alloc and monitor groups").
#[tactic(auto, using(crate::proofs::FixedEntries::looking))]
pub fn fixed_entry(dir: DirRef, name: &[u8]) -> Option<PathRef>
    ensures { result ≡ entry_among dir name.now (fixed_in dir) }
{
    for fixed in fixed_in(dir) {
        if is_name(name, fixed.name()) {
            return Some(fixed.path(dir));
        }
    }
    None
}

// The directory of a domain, by the two digits of its name.
fn domain_entry(holder: Holder, name: &[u8], domains: u8) -> Option<PathRef>
    requires { domains ≤ 8 }
    ensures { result ≡ entry_of domains (MonData holder) name.now }
{
    for domain in 0..domains {
        if is_domain(name, domain) {
            return Some(PathRef::Dir(DirRef::MonDomain(holder, domain)));
        }
    }
    None
}

// Whether this is the name of the directory of this domain.
fn is_domain(name: &[u8], domain: u8) -> bool
    ensures { result ≡ is_text name.now (domain_name domain) }
{
    is_text(name, domain_name(domain).as_slice())
}
