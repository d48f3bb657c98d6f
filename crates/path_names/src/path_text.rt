//! The canonical texts of paths.
ghost use Rattle.std.specs.Prelude.{◌≡◌, ◌++◌, ◌<◌, OnOk, codes, length};
ghost use Rattle.path_names.specs.NamesIn.{owner_ids, holder_ids, dir_ids, path_ids, AreKnown};
ghost use Rattle.path_names.specs.PathTable.{domain_name};
ghost use Rattle.path_names.specs.PathTexts.{owner_path, holder_path, dir_path, name_in, path_text};

use crate::dirs::{DirRef, Holder, Owner};
use crate::fixed::domain_name;
use crate::names::{NameId, Names};
use crate::path_ref::PathRef;
use num_text::GrowingText;
use rc_base::NoMemory;

// Adds a name.
fn push_name(text: &mut GrowingText, names: &Names, id: NameId) -> Result<(), NoMemory>
    requires { id.0 < length names.now }
    ensures { OnOk result (text.new ≡ text.old ++ name_in names.now id) }
{
    text.push(names.text(id))
}

// Adds the directory of a control group, as it stands in front of a slash.
#[tactic(auto, using(crate::proofs::laws::KnownIds::known_ids))]
fn push_owner(text: &mut GrowingText, names: &Names, owner: Owner) -> Result<(), NoMemory>
    requires { AreKnown (length names.now) (owner_ids owner) }
    ensures { OnOk result (text.new ≡ text.old ++ owner_path names.now owner) }
{
    match owner {
        Owner::Default => Ok(()),
        Owner::Ctrl(name) => {
            text.push(b"/")?;
            push_name(text, names, name)
        }
    }
}

// Adds a name in `mon_groups`.
fn push_member(text: &mut GrowingText, names: &Names, name: NameId) -> Result<(), NoMemory>
    requires { name.0 < length names.now }
    ensures { OnOk result (text.new ≡ text.old ++ (codes "/mon_groups/" ++ name_in names.now name)) }
{
    text.push(b"/mon_groups/")?;
    push_name(text, names, name)
}

// Adds the directory of a monitor group.
fn push_monitor(
    text: &mut GrowingText,
    names: &Names,
    owner: Owner,
    name: NameId,
) -> Result<(), NoMemory>
    requires owner { AreKnown (length names.now) (owner_ids owner) }
    requires name { name.0 < length names.now }
    ensures { OnOk result (text.new ≡ text.old ++ (owner_path names.now owner ++ codes "/mon_groups/" ++ name_in names.now name)) }
{
    push_owner(text, names, owner)?;
    push_member(text, names, name)
}

// Adds the directory of a group, as it stands in front of a slash.
#[tactic(auto, using(crate::proofs::laws::KnownIds::known_ids))]
fn push_holder(text: &mut GrowingText, names: &Names, holder: Holder) -> Result<(), NoMemory>
    requires { AreKnown (length names.now) (holder_ids holder) }
    ensures { OnOk result (text.new ≡ text.old ++ holder_path names.now holder) }
{
    match holder {
        Holder::Control(owner) => push_owner(text, names, owner),
        Holder::Monitor(owner, name) => push_monitor(text, names, owner, name),
    }
}

// Adds the name of a domain's directory.
fn push_domain(text: &mut GrowingText, domain: u8) -> Result<(), NoMemory>
    ensures { OnOk result (text.new ≡ text.old ++ domain_name domain) }
{
    text.push(domain_name(domain).as_slice())
}

// Adds a directory, as it stands in front of a slash.
#[tactic(auto, using(crate::proofs::laws::KnownIds::known_ids))]
fn push_dir(text: &mut GrowingText, names: &Names, dir: DirRef) -> Result<(), NoMemory>
    requires { AreKnown (length names.now) (dir_ids dir) }
    ensures { OnOk result (text.new ≡ text.old ++ dir_path names.now dir) }
{
    match dir {
        DirRef::Root => Ok(()),
        DirRef::Info => text.push(b"/info"),
        DirRef::InfoL3 => text.push(b"/info/L3"),
        DirRef::InfoL3Mon => text.push(b"/info/L3_MON"),
        DirRef::Ctrl(name) => push_owner(text, names, Owner::Ctrl(name)),
        DirRef::MonGroups(owner) => {
            push_owner(text, names, owner)?;
            text.push(b"/mon_groups")
        }
        DirRef::Mon(owner, name) => push_monitor(text, names, owner, name),
        DirRef::MonData(holder) => {
            push_holder(text, names, holder)?;
            text.push(b"/mon_data")
        }
        DirRef::MonDomain(holder, domain) => {
            push_holder(text, names, holder)?;
            text.push(b"/mon_data/")?;
            push_domain(text, domain)
        }
    }
}

/// Adds the canonical text of a path, as it may stand in a script (this project's profile). An error is out of memory, after
/// which a part of the text may have been added.
#[tactic(auto, using(crate::proofs::laws::KnownIds::known_ids))]
pub fn push_path(text: &mut GrowingText, names: &Names, path: PathRef) -> Result<(), NoMemory>
    requires { AreKnown (length names.now) (path_ids path) }
    ensures { OnOk result (text.new ≡ text.old ++ path_text names.now path) }
{
    match path {
        PathRef::Dir(DirRef::Root) => text.push(b"/"),
        PathRef::Dir(dir) => push_dir(text, names, dir),
        PathRef::File(dir, kind) => {
            push_dir(text, names, dir)?;
            text.push(b"/")?;
            text.push(kind.name())
        }
        PathRef::Free(dir, name) => {
            push_dir(text, names, dir)?;
            text.push(b"/")?;
            push_name(text, names, name)
        }
        PathRef::Nowhere(name) => push_name(text, names, name),
    }
}
