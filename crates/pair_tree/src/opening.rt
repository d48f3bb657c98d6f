//! The tables at first.
ghost use Rattle.std.specs.Prelude.{◌≡◌, ◌≤◌, ◌-◌, ◌++◌, IfOk, replicate};
ghost use Rattle.std.specs.List.Sorted.{IsStrictlyIncreasing};
ghost use Rattle.group_tree.specs.Opening.{full_mask, in_each_domain};
ghost use Rattle.pair_law.specs.State.{default_group, opening};
ghost use Rattle.pair_text.specs.Values.{side_machine};
ghost use Rattle.pair_tree.specs.Tables.{state_of};

use crate::machines::Machines;
use crate::tables::{MOST_GROUPS, Tables};
use pair_text::{PairGroup, Side};
use rc_base::{Gid, Mode, NoMemory};
use std::alloc::Global;
use task_binding::Tasks;

// This mask in each of the first domains, and 0 in the others.
fn in_first_domains(domains: u8, mask: u32) -> [u32; 8]
    requires { domains ≤ 8 }
    ensures { result ≡ replicate domains mask ++ replicate (8 - domains) 0 }
{
    let mut masks = [0; 8];
    masks[..domains as usize].fill(mask);
    masks
}

// Every way of each cache of a side.
fn every_way(m: &Machines, side: Side) -> [u32; 8]
    ensures { result ≡ in_each_domain (side_machine m.now side) (full_mask (side_machine m.now side)) }
{
    let caches = m.side(side);
    in_first_domains(caches.domains, caches.full())
}

// The default group.
fn default_group(m: &Machines) -> PairGroup
    ensures { result ≡ default_group m.now }
{
    PairGroup {
        gid: Gid::DEFAULT,
        name: None,
        mode: Mode::Shareable,
        class: 0,
        first: every_way(m, Side::First),
        second: every_way(m, Side::Second),
    }
}

impl Tables {
    /// The tables at first, with room for all groups. NoMemory where there is none, or none for the tasks.
    pub(crate) fn create(alloc: Global, m: &Machines, tasks: &[u32]) -> Result<Tables, NoMemory>
        requires rising { IsStrictlyIncreasing tasks.now }
        ensures state { IfOk result (λ t. state_of t ≡ opening m.now tasks.now) }
    {
        let tasks = Tasks::create(alloc, tasks)?;
        let mut groups = Vec::with_capacity(alloc, MOST_GROUPS)?;
        groups.push_reserved(default_group(m));
        Ok(Tables {
            groups,
            tasks,
            next_gid: 1,
        })
    }
}
