//! Threads, numbered through all phases.
ghost use Rattle.std.specs.Prelude.{◌≡◌, ◌≤◌, [], length, MatchOption, slice_index_or};
ghost use Rattle.script_ops.specs.declared.limits.TheConstants.{MOST_THREADS};
ghost use Rattle.script_ops.specs.Values.{threads_in, AreFew};

use crate::ops::Ops;
use crate::phase::Phase;

/// How many threads some phases have together.
pub fn count_threads(phases: &[Phase]) -> u32
    requires { AreFew phases.now }
    ensures count { result ≡ length (threads_in phases.now) }
    ensures few { result ≤ MOST_THREADS }
{
    let mut count: u32 = 0;
    for phase in phases {
        count += phase.thread_count() as u32;
    }
    count
}

/// The ops of a thread, or None where there is no such thread.
#[tactic(auto, using(crate::proofs::Threads::finding))]
pub fn find_ops(phases: &[Phase], thread: usize) -> Option<&Ops>
    ensures { MatchOption result (length (threads_in phases.now) ≤ thread) (λ ops. ops.now ≡ slice_index_or (threads_in phases.now) thread []) }
{
    let mut left = thread;
    for phase in phases {
        let count = phase.thread_count();
        if left < count {
            return Some(phase.ops(left));
        }
        left -= count;
    }
    None
}
