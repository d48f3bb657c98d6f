//! Looking through the bindings, which are in the order of their tasks.
ghost use Rattle.std.specs.Prelude.{◌≡◌, ◌≢◌, ◌<◌, ◌≤◌, length, All, IfSome, IfNone};
ghost use Rattle.std.specs.List.{AllWithin, HoldsAt, slice_get};
ghost use Rattle.task_binding.specs.Bindings.{AreRising, control_members, has_control, has_monitor, monitor_members};

use crate::binding::Binding;
use rc_base::Gid;

/// The place of a task.
pub(crate) fn place_of(bindings: &[Binding], task: u64) -> Option<usize>
    requires { AreRising bindings.now }
    ensures within { IfSome result (λ place. place < length bindings.now) }
    ensures there { IfSome result (λ place. HoldsAt (λ b. b.task ≡ task) bindings.now place) }
    ensures nowhere { IfNone result (All (λ b. b.task ≢ task) bindings.now) }
{
    let place = lower_bound(bindings, task);
    if place == bindings.len() {
        return None;
    }
    if u64::from(bindings[place].task) != task {
        return None;
    }
    Some(place)
}

// How many tasks are below this one.
fn lower_bound(bindings: &[Binding], task: u64) -> usize
    requires { AreRising bindings.now }
    ensures within { result ≤ length bindings.now }
    ensures below { AllWithin (λ b. b.task < task) bindings.now 0 result }
    ensures above { AllWithin (λ b. task ≤ b.task) bindings.now result (length bindings.now) }
{
    let mut low = 0;
    let mut high = bindings.len();
    while low < high {
        let middle = low + (high - low) / 2;
        if u64::from(bindings[middle].task) < task {
            low = middle + 1;
        } else {
            high = middle;
        }
    }
    low
}

/// The i-th task of a control group.
pub(crate) fn nth_of_control(bindings: &[Binding], group: Gid, i: u32) -> Option<u32>
    ensures { result ≡ slice_get (control_members group bindings.now) i }
{
    let mut left = i;
    for b in bindings {
        if b.control == group {
            if left == 0 {
                return Some(b.task);
            }
            left -= 1;
        }
    }
    None
}

/// The i-th task that is counted in a group.
pub(crate) fn nth_of_monitor(bindings: &[Binding], group: Gid, i: u32) -> Option<u32>
    ensures { result ≡ slice_get (monitor_members group bindings.now) i }
{
    let mut left = i;
    for b in bindings {
        if b.monitor == group {
            if left == 0 {
                return Some(b.task);
            }
            left -= 1;
        }
    }
    None
}
