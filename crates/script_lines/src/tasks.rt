//! Declared tasks.
ghost use Rattle.std.specs.Prelude.{◌≡◌, ◌<◌, ◌≤◌, ◌++◌, nat_lt, length, OnOk, IfSome};
ghost use Rattle.std.specs.List.{list_any, AllWithin, IsAllAdjacentAnswer};
ghost use Rattle.std.specs.List.Sorted.{IsPermutation, IsNonDecreasingBy};
ghost use Rattle.line_words.specs.Lines.{words};
ghost use Rattle.script_lines.specs.Tasks.{tasks_of, id_of, range_of, ranges_from, declared, has_task, task_of, count_of, ids_in, ids_of, Declares, RiseFrom};
ghost use Rattle.script_ops.specs.declared.limits.TheConstants.{MOST_TASKS};

use crate::fault::{LineError, LineFault};
use line_words::{next_word, no_word};
use num_text::{cut, read_dec};
use rc_base::NoMemory;
use script_ops::MOST_TASKS;

/// Tasks that one word declares, from the first id to the last.
#[derive(Clone, Copy, Debug, PartialEq, Eq)]
pub struct TaskRange {
    pub first: u32,
    pub last: u32,
}

fn id(text: &[u8]) -> Option<u32>
    ensures { result ≡ id_of text.now }
{
    match read_dec(text) {
        Some(n) if 0 < n && n < 1 << 32 => Some(n as u32),
        _ => None,
    }
}

fn range(first: u32, last: u32) -> Option<TaskRange>
    ensures range { result ≡ range_of first last }
    ensures order { IfSome result (λ t. t.first ≤ t.last) }
{
    if last < first {
        None
    } else {
        Some(TaskRange { first, last })
    }
}

#[tactic(auto, unfolding(crate::specs::Tasks::tasks_of))]
fn tasks_of(word: &[u8]) -> Option<TaskRange>
    ensures tasks { result ≡ tasks_of word.now }
    ensures order { IfSome result (λ t. t.first ≤ t.last) }
{
    let (first, last) = cut(word, b'-');
    match last {
        None => {
            let id = id(word)?;
            range(id, id)
        }
        Some(last) => {
            let first = id(first)?;
            let last = id(last)?;
            range(first, last)
        }
    }
}

// How many ranges end before this id.
fn ended(all: &[TaskRange], id: u32) -> usize
    requires { RiseFrom 0 all.now }
    ensures before { AllWithin (λ t. t.last < id) all.now 0 result }
    ensures behind { AllWithin (λ t. id ≤ t.last) all.now result (length all.now) }
{
    all.partition_point(|t| t.last < id)
}

// Adds the tasks of the words of a text, in the order of the words.
#[tactic(auto, unfolding(crate::specs::Tasks::ranges_from))]
fn collect(all: &mut Vec<TaskRange>, text: &[u8]) -> Result<(), LineError>
    ensures { Declares result all.new.items (ranges_from all.old.items (words text.now)) }
{
    let mut left = text;
    'words: loop {
        let Some((word, rest)) = next_word(left) else {
            return Ok(());
        };
        let Some(found) = tasks_of(word) else {
            return Err(LineError::Fault(LineFault::BadTasks));
        };
        match all.push(found) {
            Ok(()) => {}
            Err(_) => return Err(LineError::NoMemory),
        }
        left = rest;
    }
}

// Sorts ranges by their first tasks.
fn sort(all: &mut Vec<TaskRange>)
    ensures same { IsPermutation all.old.items all.new.items }
    ensures sorted { IsNonDecreasingBy (λ t. t.first) all.new.items }
{
    all.sort_unstable_by_key(|t| t.first);
}

// Whether each range ends before the next one begins.
fn are_apart(all: &[TaskRange]) -> bool
    ensures { IsAllAdjacentAnswer (λ t u b. b ≡ nat_lt t.last u.first) all.now result }
{
    all.is_sorted_by(|t, u| t.last < u.first)
}

/// Adds the tasks of the words of a line. All words are read before their tasks are put in order.
pub fn declare(all: &mut Vec<TaskRange>, text: &[u8]) -> Result<(), LineError>
    requires { RiseFrom 0 all.old.items }
    ensures said { Declares result all.new.items (declared all.old.items (words text.now)) }
    ensures rising { OnOk result (RiseFrom 0 all.new.items) }
{
    if no_word(text) {
        return Err(LineError::Fault(LineFault::BadTasks));
    }
    match collect(all, text) {
        Ok(()) => {}
        Err(error) => return Err(error),
    }
    sort(all);
    if are_apart(all) {
        Ok(())
    } else {
        Err(LineError::Fault(LineFault::BadTasks))
    }
}

/// Whether there are more tasks than a script may declare.
pub fn is_too_many(all: &[TaskRange]) -> bool
    ensures { result ≡ nat_lt MOST_TASKS (count_of all.now) }
{
    let mut count: u64 = 0;
    for t in all {
        count += (u64::from(t.last) + 1).saturating_sub(u64::from(t.first));
        if count > MOST_TASKS {
            return true;
        }
    }
    false
}

#[tactic(auto, using(crate::proofs::TaskSearch::searching))]
fn is_declared(all: &[TaskRange], id: u32) -> bool
    requires { RiseFrom 0 all.now }
    ensures { result ≡ list_any (has_task id) all.now }
{
    match all.get(ended(all, id)) {
        Some(t) => t.first <= id,
        None => false,
    }
}

/// The task of this id, where it is declared.
pub fn declared_task(all: &[TaskRange], id: u64) -> Option<u32>
    requires { RiseFrom 0 all.now }
    ensures { result ≡ task_of all.now id }
{
    match u32::try_from(id) {
        Ok(id) if is_declared(all, id) => Some(id),
        _ => None,
    }
}

// Adds the ids of a range.
fn push_range(ids: &mut Vec<u32>, t: TaskRange) -> Result<(), NoMemory>
    ensures { OnOk result (ids.new.items ≡ ids.old.items ++ ids_in t) }
{
    let size = (u64::from(t.last) + 1).saturating_sub(u64::from(t.first));
    for i in 0..size {
        ids.push((u64::from(t.first) + i) as u32)?;
    }
    Ok(())
}

/// Adds the ids of all ranges.
pub fn push_ids(ids: &mut Vec<u32>, all: &[TaskRange]) -> Result<(), NoMemory>
    ensures { OnOk result (ids.new.items ≡ ids.old.items ++ ids_of all.now) }
{
    for t in all {
        push_range(ids, *t)?;
    }
    Ok(())
}
