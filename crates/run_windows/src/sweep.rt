//! The groups that are exclusive in one domain, and how long they stay so, from the last change back.
ghost use Rattle.std.specs.Prelude.{◌≡◌, ◌<◌, IfOk, OnOk, find, map};
ghost use Rattle.std.specs.Option.{option_copied};
ghost use Rattle.run_windows.specs.Stays.{is_same, last_of, mask_of, stay_of};
ghost use Rattle.run_windows.specs.Sweeps.{IsSwept, Swept, restored, swept_over};

use crate::changes::Past;
use crate::edit::Edit;
use crate::exclusive_group::ExclusiveGroup;
use crate::places::{copied, insert, put, remove};
use private_lru::ExclusiveSpan;
use rc_base::NoMemory;
use std::alloc::Global;

/// The groups that are exclusive from a change on.
#[derive(Drop)]
pub(crate) struct Sweep {
    /// The groups, each with the last epoch at which it is still exclusive on its mask.
    pub stays: Vec<ExclusiveSpan>,
    /// The last epoch before the change.
    pub last: u64,
}

// The mask of a group in a domain.
fn mask_of(group: &ExclusiveGroup, domain: u8) -> u32
    requires { domain < 8 }
    ensures { result ≡ mask_of domain group.now }
{
    group.masks[domain as usize]
}

// Whether it is the same group with the same mask.
fn is_same(group: &ExclusiveGroup, domain: u8, later: &ExclusiveSpan) -> bool
    requires { domain < 8 }
    ensures { result ≡ is_same domain group.now later.now }
{
    later.gid.0 == group.gid.0 && later.mask == mask_of(group, domain)
}

// The same group with the same mask from a later epoch on.
fn find_same<'a>(
    next: &'a [ExclusiveSpan],
    group: &ExclusiveGroup,
    domain: u8,
) -> Option<&'a ExclusiveSpan>
    requires { domain < 8 }
    ensures { option_copied result ≡ find (is_same domain group.now) next.now }
{
    next.iter().find(|later| is_same(group, domain, later))
}

// A group that is exclusive on the same mask from the next change on stays so as long as it does from there.
fn last_of(group: &ExclusiveGroup, domain: u8, next: &[ExclusiveSpan], last: u64) -> u64
    requires { domain < 8 }
    ensures { result ≡ last_of domain last next.now group.now }
{
    match find_same(next, group, domain) {
        Some(later) => later.last,
        None => last,
    }
}

// How long this group stays exclusive.
fn stay_of(group: &ExclusiveGroup, domain: u8, next: &[ExclusiveSpan], last: u64) -> ExclusiveSpan
    requires { domain < 8 }
    ensures { result ≡ stay_of domain last next.now group.now }
{
    ExclusiveSpan {
        last: last_of(group, domain, next, last),
        gid: group.gid,
        mask: mask_of(group, domain),
    }
}

// How long each of these groups stays exclusive.
fn stays_of(
    alloc: Global,
    groups: &[ExclusiveGroup],
    domain: u8,
    next: &[ExclusiveSpan],
    last: u64,
) -> Result<Vec<ExclusiveSpan>, NoMemory>
    requires { domain < 8 }
    ensures { IfOk result (λ stays. stays.items ≡ map (stay_of domain last next.now) groups.now) }
{
    let mut stays: Vec<ExclusiveSpan> = Vec::new(alloc);
    for group in groups {
        stays.push(stay_of(group, domain, next, last))?;
    }
    Ok(stays)
}

// Makes the stays before a change of those after it.
fn restore(
    alloc: Global,
    stays: &mut Vec<ExclusiveSpan>,
    edit: &Edit,
    domain: u8,
    last: u64,
) -> Result<(), NoMemory>
    requires { domain < 8 }
    ensures { OnOk result (stays.new.items ≡ restored domain last edit.now stays.old.items) }
{
    match edit {
        Edit::Whole(all) => {
            *stays = stays_of(alloc, all, domain, stays, last)?;
            Ok(())
        }
        Edit::Put(at, group) => {
            let stay = stay_of(group, domain, stays, last);
            put(stays, *at, stay);
            Ok(())
        }
        Edit::Insert(at, group) => {
            let stay = stay_of(group, domain, stays, last);
            insert(stays, *at, stay)
        }
        Edit::Remove(at) => {
            remove(stays, *at);
            Ok(())
        }
    }
}

/// Goes over one change back.
pub(crate) fn sweep_over(
    alloc: Global,
    sweep: &mut Sweep,
    past: &Past,
    domain: u8,
) -> Result<(), NoMemory>
    requires { domain < 8 }
    ensures { OnOk result (IsSwept (swept_over domain (record { stays = sweep.old.stays.items; last = sweep.old.last }) past.now) sweep.new) }
{
    restore(alloc, &mut sweep.stays, &past.edit, domain, sweep.last)?;
    sweep.last = past.from.saturating_sub(1);
    Ok(())
}

/// Another one at the same change.
pub(crate) fn same_sweep(alloc: Global, sweep: &Sweep) -> Result<Sweep, NoMemory>
    ensures { IfOk result (λ same. IsSwept (record { stays = sweep.now.stays.items; last = sweep.now.last }) same) }
{
    Ok(Sweep {
        stays: copied(alloc, &sweep.stays)?,
        last: sweep.last,
    })
}
