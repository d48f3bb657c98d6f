//! The phases of a trace.
ghost use Rattle.std.specs.Prelude.{◌≡◌, ◌+◌, ◌*◌, ◌≤◌, ◌∷◌, ◌++◌, OnOk, decimal, map};
ghost use Rattle.std.specs.List.{flat_map, range_with_len};
ghost use Rattle.trace_gen.specs.Draws.{number_at};
ghost use Rattle.trace_gen.specs.Trace.{access_line, ended, opening_lines, order_draws, order_line, order_number, task_draws, text_of, thread_lines};

use crate::lines::TASKS;
use crate::trace::Trace;
use rc_base::NoMemory;

// Adds the numbers of the order.
fn push_order_numbers(trace: &mut Trace, n: u32) -> Result<(), NoMemory>
    requires { trace.old.last ≡ n }
    ensures last { OnOk result (trace.new.last ≡ number_at n n) }
    ensures text { OnOk result (trace.new.text ≡ trace.old.text ++ flat_map (λ draw. 32 ∷ decimal (order_number draw)) (order_draws n)) }
{
    'numbers: for _ in 0..n {
        trace.push_order_number()?;
    }
    Ok(())
}

// Adds the accesses of a task.
fn push_accesses(trace: &mut Trace, task: u64, n: u32) -> Result<(), NoMemory>
    requires some { 1 ≤ task }
    requires few { task ≤ TASKS }
    requires last { trace.old.last ≡ number_at n (task * n) }
    ensures last { OnOk result (trace.new.last ≡ number_at n ((task + 1) * n)) }
    ensures text { OnOk result (trace.new.text ≡ trace.old.text ++ flat_map (λ draw. ended (access_line task draw)) (task_draws n task)) }
{
    'accesses: for _ in 0..n {
        trace.push_access(task)?;
    }
    Ok(())
}

// Adds the thread of a task.
#[tactic(auto, using(crate::proofs::Texts::thread_texts))]
fn push_thread(trace: &mut Trace, task: u64, n: u32) -> Result<(), NoMemory>
    requires some { 1 ≤ task }
    requires few { task ≤ TASKS }
    requires last { trace.old.last ≡ number_at n (task * n) }
    ensures last { OnOk result (trace.new.last ≡ number_at n ((task + 1) * n)) }
    ensures text { OnOk result (trace.new.text ≡ trace.old.text ++ text_of (thread_lines task (task_draws n task))) }
{
    trace.push(b"thread\n")?;
    push_accesses(trace, task, n)
}

/// Adds the first phase, and the line that opens the second.
pub(crate) fn push_opening(trace: &mut Trace) -> Result<(), NoMemory>
    ensures last { trace.new.last ≡ trace.old.last }
    ensures text { OnOk result (trace.new.text ≡ trace.old.text ++ text_of opening_lines) }
{
    trace.push(
        b"machine domains=2 sets=256 ways=16 classes=4 rmids=8 cpus=8\n\
        tasks 1-4\n\
        phase\n\
        thread\n\
        write /schemata L3:0=ff00;1=ff00\n\
        mkdir /g1\n\
        write /g1/schemata L3:0=000f;1=000f\n\
        write /g1/mode exclusive\n\
        mkdir /g2\n\
        write /g2/schemata L3:0=00f0;1=00f0\n\
        write /g1/tasks 1,3\n\
        write /g2/tasks 2,4\n\
        flush\n\
        phase\n",
    )
}

/// Adds the order of the second phase, from the first n draws.
#[tactic(auto, using(crate::proofs::Texts::order_texts))]
pub(crate) fn push_order(trace: &mut Trace, n: u32) -> Result<(), NoMemory>
    requires { trace.old.last ≡ n }
    ensures last { OnOk result (trace.new.last ≡ number_at n n) }
    ensures text { OnOk result (trace.new.text ≡ trace.old.text ++ ended (order_line (order_draws n))) }
{
    trace.push(b"order")?;
    push_order_numbers(trace, n)?;
    trace.push(b"\n")
}

/// Adds the threads of the second phase, from the draws after those.
pub(crate) fn push_threads(trace: &mut Trace, n: u32) -> Result<(), NoMemory>
    requires { trace.old.last ≡ number_at n n }
    ensures { OnOk result (trace.new.text ≡ trace.old.text ++ text_of (flat_map (λ task. thread_lines task (task_draws n task)) (range_with_len 1 4))) }
{
    for before in 0..TASKS {
        push_thread(trace, before + 1, n)?;
    }
    Ok(())
}
