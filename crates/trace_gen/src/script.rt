//! Making the script that a trace is, without its text.
ghost use Rattle.std.specs.Prelude.{◌≡◌, ◌+◌, ◌*◌, ◌≤◌, IfOk, OnOk, map};
ghost use Rattle.std.specs.List.{range_with_len};
ghost use Rattle.trace_gen.specs.Draws.{number_at};
ghost use Rattle.trace_gen.specs.Scripts.{access, accesses, trace_phase, trace_script};
ghost use Rattle.trace_gen.specs.Trace.{order_draws, order_number, task_draws};

use crate::beginning::{group_names, opening_phase, trace_machine, trace_tasks};
use crate::draws::Draws;
use crate::lines::{CPU_STEP, MEMORY_LINE_BYTES, TASK_BYTES, TASK_LINES, TASKS};
use crate::making::MOST_THREAD_ACCESSES;
use rc_base::NoMemory;
use script_ops::{Op, Ops, Phase, Script};
use std::alloc::Global;

// The access of a task at the address that a draw gives it.
fn access_of(task: u32, draw: u32) -> Op
    requires some { 1 ≤ task }
    requires few { task ≤ TASKS }
    ensures { result ≡ access task draw }
{
    Op::Access {
        task,
        cpu: (CPU_STEP * (u64::from(task) - 1)) as u8,
        addr: u64::from(task) * TASK_BYTES + u64::from(draw % TASK_LINES) * MEMORY_LINE_BYTES,
    }
}

// The order of the second phase, from the first n draws.
fn order_of(alloc: Global, draws: &mut Draws, n: u32) -> Result<Vec<u32>, NoMemory>
    requires { draws.old.last ≡ n }
    ensures last { OnOk result (draws.new.last ≡ number_at n n) }
    ensures order { IfOk result (λ order. order.items ≡ map order_number (order_draws n)) }
{
    let mut order = Vec::with_capacity(alloc, n as usize)?;
    'numbers: for _ in 0..n {
        order.push(1 + draws.draw() % TASKS as u32)?;
    }
    Ok(order)
}

// The accesses of a task, from the n draws after those of the order and of the tasks before it.
fn accesses_of(alloc: Global, draws: &mut Draws, task: u32, n: u32) -> Result<Ops, NoMemory>
    requires some { 1 ≤ task }
    requires few { task ≤ TASKS }
    requires last { draws.old.last ≡ number_at n (task * n) }
    ensures last { OnOk result (draws.new.last ≡ number_at n ((task + 1) * n)) }
    ensures ops { IfOk result (λ ops. ops ≡ accesses task (task_draws n task)) }
{
    let mut ops = Ops::create(alloc);
    ops.reserve(n as usize)?;
    'accesses: for _ in 0..n {
        ops.push(access_of(task, draws.draw()))?;
    }
    Ok(ops)
}

// The threads of the second phase, one of each task.
fn threads_of(alloc: Global, draws: &mut Draws, n: u32) -> Result<Vec<Ops>, NoMemory>
    requires { draws.old.last ≡ number_at n n }
    ensures { IfOk result (λ threads. threads.items ≡ map (λ task. accesses task (task_draws n task)) (range_with_len 1 4)) }
{
    let mut threads = Vec::with_capacity(alloc, TASKS as usize)?;
    for before in 0..TASKS as u32 {
        threads.push(accesses_of(alloc, draws, before + 1, n)?)?;
    }
    Ok(threads)
}

// The second phase.
fn phase_of(alloc: Global, n: u32) -> Result<Phase, NoMemory>
    ensures { IfOk result (λ p. p ≡ trace_phase n) }
{
    let mut draws = Draws::after(n);
    let order = order_of(alloc, &mut draws, n)?;
    let threads = threads_of(alloc, &mut draws, n)?;
    Ok(Phase::new(order, threads))
}

// Both phases.
#[tactic(auto, unfolding(crate::specs::Scripts::trace_script))]
fn phases_of(alloc: Global, n: u32) -> Result<Vec<Phase>, NoMemory>
    ensures { IfOk result (λ phases. phases.items ≡ (trace_script n).phases) }
{
    let opening = opening_phase(alloc)?;
    let accesses = phase_of(alloc, n)?;
    let mut phases = Vec::with_capacity(alloc, 2)?;
    phases.push(opening)?;
    phases.push(accesses)?;
    Ok(phases)
}

/// The script of a number n, which is what a reader makes of its trace. An error is out of memory.
pub fn make_script(alloc: Global, n: u32) -> Result<Script, NoMemory>
    requires low { 1 ≤ n }
    requires high { n ≤ MOST_THREAD_ACCESSES }
    ensures { IfOk result (λ s. s ≡ trace_script n) }
{
    let names = group_names(alloc)?;
    let phases = phases_of(alloc, n)?;
    let tasks = trace_tasks(alloc)?;
    Ok(Script::new(trace_machine(), tasks, names, phases))
}
