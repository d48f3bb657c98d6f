//! The slices, the threads and their lists before the first step.
ghost use Rattle.std.specs.Prelude.{◌≡◌, ◌+◌, ◌*◌, ◌<◌, ◌≤◌, length, IfOk, OnOk};
ghost use Rattle.machine.specs.Slices.{slice_count};
ghost use Rattle.script_ops.specs.Values.{IsLawful, threads_of};
ghost use Rattle.run_law.specs.Quotas.{AreCounted, AreRooms};
ghost use Rattle.step_world.specs.Openings.{AreFresh, AreFirst, AreListed};

use crate::slice::Slice;
use crate::thread_state::Thread;
use rc_base::NoMemory;
use run_law::LookLists;
use script_ops::Script;
use std::alloc::Global;

// Adds the slices of a domain. `rooms` are those of all slices.
fn push_domain(
    alloc: Global,
    script: &Script,
    rooms: &[u64],
    slices: &mut Vec<Slice>,
    domain: u8,
) -> Result<(), NoMemory>
    requires rooms { AreRooms script.now rooms.now }
    requires domain { domain < script.now.machine.domains }
    requires fresh { AreFresh script.now (domain * script.now.machine.slices) slices.old.items }
    ensures { OnOk result (AreFresh script.now (domain * script.now.machine.slices + script.now.machine.slices) slices.new.items) }
{
    let m = script.machine();
    for slice in 0..m.slices {
        let room = rooms[m.slice_number(domain, slice)];
        slices.push(Slice::create(alloc, m, domain, slice, room)?)?;
    }
    Ok(())
}

/// The slices of a machine, empty, by domain and then by slice, each with its room. `rooms` are those of all slices.
pub(crate) fn fresh_slices(
    alloc: Global,
    script: &Script,
    rooms: &[u64],
) -> Result<Vec<Slice>, NoMemory>
    requires { AreRooms script.now rooms.now }
    ensures { IfOk result (λ slices. AreFresh script.now (slice_count script.now.machine) slices.items) }
{
    let m = script.machine();
    let mut slices = Vec::new(alloc);
    for domain in 0..m.domains {
        push_domain(alloc, script, rooms, &mut slices, domain)?;
    }
    Ok(slices)
}

/// All threads before their first ops.
pub(crate) fn first_threads(alloc: Global, script: &Script) -> Result<Vec<Thread>, NoMemory>
    ensures first { IfOk result (λ threads. AreFirst (length (threads_of script.now)) threads.items) }
    ensures lawful { IsLawful script.now }
{
    let mut threads = Vec::new(alloc);
    for _ in 0..script.threads() {
        threads.push(Thread::FIRST)?;
    }
    Ok(threads)
}

/// The lists of all threads for the counts of their commands. `counts` says how many commands each thread has.
pub(crate) fn fresh_lists(
    alloc: Global,
    script: &Script,
    counts: &[u64],
) -> Result<Vec<LookLists>, NoMemory>
    requires { AreCounted script.now (length (threads_of script.now)) counts.now }
    ensures { IfOk result (λ lists. AreListed script.now (length (threads_of script.now)) lists.items) }
{
    let mut lists = Vec::new(alloc);
    for t in 0..script.threads() {
        let own = LookLists::create(alloc, script.machine(), script.ops(t), counts[t as usize])?;
        lists.push(own)?;
    }
    Ok(lists)
}
