//! Reading a path.
ghost use Rattle.std.specs.Prelude.{◌≡◌, ◌+◌, ◌^◌, ◌<◌, ◌≤◌, ◌↔◌, ◌-◌, ◌≢◌, length, All, Ok, None, Some, Err, IfOk, IfSome};
ghost use Rattle.path_names.specs.Components.{components};
ghost use Rattle.path_names.specs.Domains.{IsWithin};
ghost use Rattle.path_names.specs.NamesIn.{dir_ids, path_ids};
ghost use Rattle.path_names.specs.Interned.{Keeps};
ghost use Rattle.path_names.specs.PathTable.{entry_of};
ghost use Rattle.path_names.specs.declared.paths.TheConstants.{MOST_PATH_NAMES};
ghost use Rattle.path_names.specs.Reading.{entry_or_named, or_nowhere, path_of, reached};
ghost use Rattle.path_names.specs.ShortNames.{AreShort, component_ids};

use crate::components::{is_well_formed, next_component};
use crate::dirs::DirRef;
use crate::entries::{entry, named};
use crate::names::Names;
use crate::path_ref::PathRef;
use rc_base::{NoMemory, is_text};

/// How many names a path adds at most to those that were known.
pub const MOST_PATH_NAMES: usize = 4;

/// Why a path was not read.
#[derive(Clone, Copy, Debug, PartialEq, Eq)]
pub enum PathFault {
    /// The text is neither `/` nor components, each after a `/`. A component is 1 to 255 bytes from `!` to `~`
    /// without `/`, and neither `.` nor `..` (this project's profile).
    Bad,
    /// Out of memory for a name.
    NoMemory,
}

impl From<NoMemory> for PathFault {
    ghost use Rattle.std.specs.Prelude.{◌≡◌};
    ghost use Rattle.path_names.specs.declared.paths.PathFault.TheVariants.{NoMemory as IsNoMemory};

    ghost from_gives = { λ _ e. e ≡ IsNoMemory };

    fn from(_: NoMemory) -> Self {
        PathFault::NoMemory
    }
}

/// What the path names in the tree of a machine with this many domains, at most 8. Names in it are interned.
pub fn read_path(text: &[u8], domains: u8, names: &mut Names) -> Result<PathRef, PathFault>
    requires domains { domains ≤ 8 }
    requires room { length names.old < 2 ^ 31 }
    ensures path { IfOk result (λ path. path_of domains names.old text.now ≡ Some (path, names.new)) }
    ensures bad { (result ≡ Err PathFault.Bad) ↔ (path_of domains names.old text.now ≡ None) }

    // The names of a text that is no path are not kept, and those that were known always are.
    ensures unchanged { result ≡ Err PathFault.Bad → names.new ≡ names.old }
    ensures kept { Keeps names.old names.new }

    // The domain that the path names exists.
    ensures within { IfOk result (λ path. IsWithin domains path) }

    // The names in the path are known, those of its components are short, and they are few.
    ensures ids { IfOk result (λ path. All (λ id. id < length names.new) (path_ids path)) }
    ensures short { IfOk result (λ path. AreShort names.new (component_ids path)) }
    ensures few { length names.new ≤ length names.old + MOST_PATH_NAMES }
    ensures bytes { length names.new ≤ length names.old + length text.now }
{
    if let Some(path) = names.last_path(text, domains) {
        return Ok(path);
    }
    let path = read_anew(text, domains, names)?;
    names.keep_path(text, domains, path);
    Ok(path)
}

// The same of a path that was not read last.
fn read_anew(text: &[u8], domains: u8, names: &mut Names) -> Result<PathRef, PathFault>
    requires domains { domains ≤ 8 }
    requires room { length names.old < 2 ^ 31 }
    ensures path { IfOk result (λ path. path_of domains names.old text.now ≡ Some (path, names.new)) }
    ensures bad { (result ≡ Err PathFault.Bad) ↔ (path_of domains names.old text.now ≡ None) }
    ensures unchanged { result ≡ Err PathFault.Bad → names.new ≡ names.old }
    ensures kept { Keeps names.old names.new }
    ensures within { IfOk result (λ path. IsWithin domains path) }
    ensures ids { IfOk result (λ path. All (λ id. id < length names.new) (path_ids path)) }
    ensures short { IfOk result (λ path. AreShort names.new (component_ids path)) }
    ensures few { length names.new ≤ length names.old + MOST_PATH_NAMES }
    ensures bytes { length names.new ≤ length names.old + length text.now }
{
    if is_text(text, b"/") {
        return Ok(PathRef::Dir(DirRef::Root));
    }
    if !is_well_formed(text) {
        return Err(PathFault::Bad);
    }
    match resolve(text, domains, names) {
        Ok(path) => Ok(path),
        Err(NoMemory) => Err(PathFault::NoMemory),
    }
}

// Where the components lead, or the whole path as one name.
fn resolve(text: &[u8], domains: u8, names: &mut Names) -> Result<PathRef, NoMemory>
    requires domains { domains ≤ 8 }
    requires room { length names.old < 2 ^ 31 }
    ensures path { IfOk result (λ path. or_nowhere text.now (reached domains names.old (components text.now)) ≡ (path, names.new)) }
    ensures ids { IfOk result (λ path. All (λ id. id < length names.new) (path_ids path)) }
    ensures few { length names.new ≤ length names.old + 4 }
    ensures bytes { length names.new ≤ length names.old + length text.now }
    ensures kept { Keeps names.old names.new }
{
    match walk(text, domains, names) {
        Ok(Some(path)) => Ok(path),
        Ok(None) => nowhere(text, names),
        Err(NoMemory) => Err(NoMemory),
    }
}

// The whole path as one name.
fn nowhere(text: &[u8], names: &mut Names) -> Result<PathRef, NoMemory>
    requires { length names.old < 2 ^ 32 - 1 }
    ensures path { IfOk result (λ path. or_nowhere text.now (None, names.old) ≡ (path, names.new)) }
    ensures ids { IfOk result (λ path. All (λ id. id < length names.new) (path_ids path)) }
    ensures more { length names.new ≤ length names.old + 1 }
    ensures kept { Keeps names.old names.new }
{
    let id = names.intern(text)?;
    Ok(PathRef::Nowhere(id))
}

// Where the components lead from the root, or `None` below a file or a free name.
fn walk(text: &[u8], domains: u8, names: &mut Names) -> Result<Option<PathRef>, NoMemory>
    requires domains { domains ≤ 8 }
    requires room { length names.old < 2 ^ 31 }
    ensures path { IfOk result (λ path. reached domains names.old (components text.now) ≡ (path, names.new)) }
    ensures ids { IfOk result (λ path. IfSome path (λ there. All (λ id. id < length names.new) (path_ids there))) }
    ensures few { length names.new ≤ length names.old + 3 }
    ensures bytes { length names.new ≤ length names.old + length text.now }
    ensures left { result ≡ Ok None → length names.new < length names.old + length text.now }
    ensures kept { Keeps names.old names.new }
{
    let mut at = PathRef::Dir(DirRef::Root);
    let mut left = text;
    while let Some((name, rest)) = next_component(left) {
        let PathRef::Dir(dir) = at else {
            return Ok(None);
        };
        at = lead(dir, name, domains, names)?;
        left = rest;
    }
    Ok(Some(at))
}

// Where a name leads from a directory.
fn lead(dir: DirRef, name: &[u8], domains: u8, names: &mut Names) -> Result<PathRef, NoMemory>
    requires domains { domains ≤ 8 }
    requires room { length names.old < 2 ^ 32 - 1 }
    ensures path { IfOk result (λ path. entry_or_named (entry_of domains dir name.now) dir name.now names.old ≡ (Some path, names.new)) }
    ensures count { IfOk result (λ path. length names.new + length (dir_ids dir) ≤ length names.old + length (path_ids path)) }
    ensures ids { All (λ id. id < length names.old) (dir_ids dir) → IfOk result (λ path. All (λ id. id < length names.new) (path_ids path)) }
    ensures more { length names.new ≤ length names.old + 1 }
    ensures kept { Keeps names.old names.new }
{
    if let Some(path) = entry(dir, name, domains) {
        return Ok(path);
    }
    let id = names.intern(name)?;
    Ok(named(dir, id))
}
