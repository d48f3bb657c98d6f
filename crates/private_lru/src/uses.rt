//! The accesses among some entries of a slice, line by line.
ghost use Rattle.std.specs.Prelude.{◌≡◌, ◌+◌, ◌<◌, ◌^◌, ◌∷◌, [], ◌++◌, IfOk, OnOk, length};
ghost use Rattle.cache_core.specs.declared.entry.SliceEntry.{SliceEntry};
ghost use Rattle.private_lru.specs.Uses.{AreAccesses, AreUses, access_of, use_at};

use cache_core::{SliceEntry, What};
use rc_base::{Gid, NoMemory};
use std::alloc::Global;

/// Whose access it is, and to which line.
#[derive(Clone, Copy, Debug, PartialEq, Eq, Drop)]
pub(crate) struct Access {
    /// The line.
    pub line: u64,
    /// The group.
    pub owner: Gid,
}

/// An access to a line among some entries, and where it stands.
#[derive(Clone, Copy, Debug, PartialEq, Eq, Drop)]
pub(crate) struct LineUse {
    /// The line.
    pub line: u64,
    /// The position, from 0.
    pub at: u32,
    /// The group.
    pub owner: Gid,
}

/// The group and the line of an access.
pub(crate) fn access_of(what: What) -> Option<Access>
    ensures { result ≡ access_of what }
{
    match what {
        What::Access { owner, line, .. } => Some(Access { line, owner }),
        _ => None,
    }
}

// Adds an access.
fn push_access(uses: &mut Vec<LineUse>, at: usize, access: Access) -> Result<(), NoMemory>
    requires few { at < 2 ^ 32 }
    ensures { OnOk result (uses.new.items ≡ uses.old.items ++ use_at at access ∷ []) }
{
    uses.push(LineUse {
        line: access.line,
        at: at as u32,
        owner: access.owner,
    })?;
    Ok(())
}

// Adds the next entry, where it is an access.
fn push_entry(uses: &mut Vec<LineUse>, entries: &[SliceEntry], at: usize) -> Result<(), NoMemory>
    requires uses { AreAccesses entries.now at uses.old.items }
    requires within { at < length entries.now }
    requires few { length entries.now < 2 ^ 32 }
    ensures { OnOk result (AreAccesses entries.now (at + 1) uses.new.items) }
{
    match access_of(entries[at].what) {
        Some(access) => {
            push_access(uses, at, access)?;
            Ok(())
        }
        None => Ok(()),
    }
}

// The accesses among these entries, one after the other.
fn accesses_of(alloc: Global, entries: &[SliceEntry]) -> Result<Vec<LineUse>, NoMemory>
    requires few { length entries.now < 2 ^ 32 }
    ensures { IfOk result (λ uses. AreAccesses entries.now (length entries.now) uses.items) }
{
    let mut uses: Vec<LineUse> = Vec::with_capacity(alloc, entries.len())?;
    for at in 0..entries.len() {
        push_entry(&mut uses, entries, at)?;
    }
    Ok(uses)
}

/// The accesses among these entries, line by line, and those to one line one after the other.
pub(crate) fn uses_of(alloc: Global, entries: &[SliceEntry]) -> Result<Vec<LineUse>, NoMemory>
    requires few { length entries.now < 2 ^ 32 }
    ensures { IfOk result (λ uses. AreUses entries.now uses.items) }
{
    let mut uses = accesses_of(alloc, entries)?;
    uses.sort_by_key(|access| access.line)?;
    Ok(uses)
}
