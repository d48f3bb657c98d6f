//! The rooms of the journals: what all ops can make in each slice, and how many commands there are.
ghost use Rattle.std.specs.Prelude.{◌≡◌, ◌+◌, ◌<◌, ◌≤◌, ◌*◌, ◌^◌, All, IfOk, HoldsAt, length, sum_by};
ghost use Rattle.machine.specs.Maps.{parameters_of};
ghost use Rattle.machine.specs.Slices.{slice_count};
ghost use Rattle.run_law.specs.Quotas.{AreCounted, AreRooms, AreWithin, HaveGrown, access_quota, command_count, commands_of, line_quota, quota, quotas_of};
ghost use Rattle.script_ops.specs.Fits.{Fits};
ghost use Rattle.script_ops.specs.declared.limits.TheConstants.{MOST_WEIGHT};
ghost use Rattle.script_ops.specs.Values.{threads_of};

use crate::quotas::common_quota;
use machine::Machine;
use rc_base::NoMemory;
use script_ops::{Op, Ops, Script};
use std::alloc::Global;

// Adds so many to each room.
fn add_to_each(rooms: &mut [u64], quota: u64)
    requires small { AreWithin (2 ^ 63) rooms.old }
    requires few { quota ≤ 257 }
    ensures { HaveGrown (λ i. quota) 257 rooms.old rooms.new }
{
    if quota > 0 {
        for i in 0..rooms.len() {
            rooms[i] += quota;
        }
    }
}

// Adds one to the room of the slice that has the line of this byte in the domain of a CPU.
fn add_line(m: &Machine, cpu: u8, byte: u64, rooms: &mut [u64])
    requires cpu { cpu < m.now.cpus }
    requires count { length rooms.old ≡ slice_count (parameters_of m.now) }
    requires small { AreWithin (2 ^ 63) rooms.old }
    ensures { HaveGrown (λ i. line_quota (parameters_of m.now) i cpu byte) 257 rooms.old rooms.new }
{
    rooms[m.line_slice(m.domain_of(cpu), byte / 64)] += 1;
}

// Adds to each room the most entries that an op can make in its slice.
fn add_op(script: &Script, op: &Op, rooms: &mut [u64])
    requires fits { Fits script.now.machine script.now.tasks op.now }
    requires count { length rooms.old ≡ slice_count script.now.machine }
    requires small { AreWithin (2 ^ 63) rooms.old }
    ensures { HaveGrown (λ i. quota script.now.machine i op.now) 257 rooms.old rooms.new }
{
    let m = script.machine();
    match op {
        Op::Access { cpu, addr, .. } => add_line(m, *cpu, *addr, rooms),
        Op::Touch { cpu, offset, .. } => add_line(m, *cpu, *offset, rooms),
        _ => add_to_each(rooms, u64::from(common_quota(m, op))),
    }
}

// Adds one to the room of the slice that the op of this number reaches, where that op is an access.
fn add_access(script: &Script, ops: &Ops, i: usize, rooms: &mut [u64])
    requires within { i < length ops.now }
    requires fit { All (Fits script.now.machine script.now.tasks) ops.now }
    requires count { length rooms.old ≡ slice_count script.now.machine }
    requires small { AreWithin (2 ^ 63) rooms.old }
    ensures { HoldsAt (λ op. HaveGrown (λ s. access_quota script.now.machine s op) 257 rooms.old rooms.new) ops.now i }
{
    match ops.access(i) {
        Some((_, cpu, addr)) => add_line(script.machine(), cpu, addr, rooms),
        None => {}
    }
}

// Adds to each room the entries that the accesses among these ops can make in its slice; `commands` says how many ops are commands.
fn add_accesses(script: &Script, ops: &Ops, commands: u64, rooms: &mut [u64])
    requires fit { All (Fits script.now.machine script.now.tasks) ops.now }
    requires few { length ops.now ≤ MOST_WEIGHT }
    requires commands { commands ≡ commands_of ops.now }
    requires count { length rooms.old ≡ slice_count script.now.machine }
    requires small { AreWithin (2 ^ 62) rooms.old }
    ensures { HaveGrown (λ i. sum_by (access_quota script.now.machine i) ops.now) (2 ^ 30) rooms.old rooms.new }
{
    // Where there is one slice, each access makes one entry in it.
    if script.machine().slice_count() == 1 {
        rooms[0] += ops.len() as u64 - commands;
        return;
    }
    for i in 0..ops.len() {
        add_access(script, ops, i, rooms);
    }
}

// Adds to each room the most entries that these ops can make in its slice.
fn add_each(script: &Script, ops: &[Op], rooms: &mut [u64])
    requires fit { All (Fits script.now.machine script.now.tasks) ops.now }
    requires few { length ops.now ≤ MOST_WEIGHT }
    requires count { length rooms.old ≡ slice_count script.now.machine }
    requires small { AreWithin (2 ^ 62 + 2 ^ 30) rooms.old }
    ensures { HaveGrown (λ i. quotas_of script.now.machine i ops.now) (257 * length ops.now) rooms.old rooms.new }
{
    for i in 0..ops.len() {
        add_op(script, &ops[i], rooms);
    }
}

/// Adds to each room, of which there is one for each slice, the most entries that these ops can make in its slice; `commands` says
/// how many of them are commands.
pub fn add_ops(script: &Script, ops: &Ops, commands: u64, rooms: &mut [u64])
    requires fit { All (Fits script.now.machine script.now.tasks) ops.now }
    requires few { length ops.now ≤ MOST_WEIGHT }
    requires commands { commands ≡ commands_of ops.now }
    requires count { length rooms.old ≡ slice_count script.now.machine }
    requires small { AreWithin (2 ^ 62) rooms.old }
    ensures { HaveGrown (λ i. quotas_of script.now.machine i ops.now) (2 ^ 30) rooms.old rooms.new }
{
    add_accesses(script, ops, commands, rooms);
    add_each(script, ops.commands(), rooms);
}

/// The rooms of all slices, in order: for each the most entries that all ops can make in it. `counts` says how many commands each
/// thread has.
pub fn slice_rooms(alloc: Global, script: &Script, counts: &[u64]) -> Result<Vec<u64>, NoMemory>
    requires { AreCounted script.now (length (threads_of script.now)) counts.now }
    ensures { IfOk result (λ rooms. AreRooms script.now rooms.items) }
{
    let mut rooms = vec![in alloc; 0; usize::from(script.machine().slice_count())]?;
    for t in 0..script.threads() {
        add_ops(script, script.ops(t), counts[t as usize], &mut rooms);
    }
    Ok(rooms)
}

/// How many of these ops are commands.
pub fn count_commands(ops: &Ops) -> u64
    requires few { length ops.now ≤ MOST_WEIGHT }
    ensures count { result ≡ commands_of ops.now }
    ensures few { result ≤ MOST_WEIGHT }
{
    ops.commands().len() as u64
}

/// How many commands each thread has.
pub fn command_counts(alloc: Global, script: &Script) -> Result<Vec<u64>, NoMemory>
    ensures { IfOk result (λ counts. AreCounted script.now (length (threads_of script.now)) counts.items) }
{
    let mut counts = Vec::new(alloc);
    for t in 0..script.threads() {
        counts.push(count_commands(script.ops(t)))?;
    }
    Ok(counts)
}

/// The room of the tree's journal: how many commands a script has. `counts` says how many each thread has.
pub fn command_room(script: &Script, counts: &[u64]) -> u64
    requires { AreCounted script.now (length (threads_of script.now)) counts.now }
    ensures { result ≡ command_count script.now }
{
    let mut room: u64 = 0;
    for t in 0..script.threads() {
        room += counts[t as usize];
    }
    room
}
