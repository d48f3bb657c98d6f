//! Taking a command.
ghost use Rattle.std.specs.Prelude.{◌≡◌, ◌+◌, ◌≤◌, ◌<◌, IfSome, None, Some, length, if◌then◌else◌, []};
ghost use Rattle.std.specs.List.{All};
ghost use Rattle.machine.specs.Ranges.{InRange};
ghost use Rattle.rc_base.specs.Replies.{refused};
ghost use Rattle.rc_base.specs.declared.replies.Why.TheVariants as whys;
ghost use Rattle.script_ops.specs.Fits.{Fits};
ghost use Rattle.script_ops.specs.declared.limits.TheConstants.{MOST_WEIGHT};
ghost use Rattle.tree_core.specs.Changes.{Takes};
ghost use Rattle.tree_core.specs.Follows.{IsReady};
ghost use Rattle.tree_law.specs.Steps.{follow_domain};
ghost use Rattle.tree_law.specs.Refusals.{plain, reply_of};
ghost use Rattle.tree_law.specs.Sound.{IsSound};
ghost use Rattle.tree_law.specs.State.{tasks_of};
ghost use Rattle.tree_law.specs.Steps.{after, left, needs, next, refusal, with_status};

use super::Tree;
use crate::follow::After;
use rc_base::{Reply, Why};
use script_ops::Op;

impl Tree {
    /// Takes a command that fits, with the counts of lines that it needs: its reply, and what follows it in the slices. A refused
    /// command leaves the tree as it was but for the last status, which mkdir and write set; only a refused write of `tasks`
    /// keeps the tasks that it had moved (kernel documentation, "Resource alloc and monitor groups"; this project's profile says
    /// which error answers which case).
    pub fn apply(&mut self, op: &Op, looks: &[u64]) -> (Reply, After)
        requires fits { Fits self.old.machine (tasks_of self.old.state) op.now }
        requires looks { length looks.now ≡ length (needs self.old.machine self.old.state op.now) }
        requires epoch { self.old.epoch < MOST_WEIGHT }
        ensures machine { self.new.machine ≡ self.old.machine }
        ensures reply { result.0 ≡ (next self.old.machine self.old.state op.now looks.now).reply }
        ensures state { self.new.state ≡ (next self.old.machine self.old.state op.now looks.now).state }
        ensures refused { IfSome (refusal self.old.machine self.old.state op.now)
            (λ r. self.new.state ≡ with_status op.now (refused r.why r.arg) (left self.old.state op.now)) }
        ensures epoch { self.new.epoch ≡ self.old.epoch + 1 }
        ensures after { result.1.items ≡ after self.old.machine self.old.state self.old.epoch op.now }
        ensures domains { All (λ f. follow_domain f < self.old.machine.domains) result.1.items }
        ensures ready { All (IsReady self.old.machine) result.1.items }
        ensures sound { IsSound self.new.machine self.new.state }
    {
        let mut follows = After::new();
        self.count();
        let reply = self.take(op, looks, &mut follows);

        // What the type keeps makes the new state a sound one.
        let _ = &self.machine;
        (reply, follows)
    }

    // Takes a command that is counted already.
    fn take(&mut self, op: &Op, looks: &[u64], follows: &mut After) -> Reply
        requires fits { Fits self.old.machine (tasks_of self.old.state) op.now }
        requires looks { length looks.now ≡ length (needs self.old.machine self.old.state op.now) }
        requires gids { self.old.state.next_gid ≤ self.old.epoch }
        requires locks { self.old.state.locks < self.old.epoch }
        requires epoch { self.old.epoch ≤ MOST_WEIGHT }
        requires nothing { follows.old.items ≡ [] }
        ensures { Takes self.old op.now looks.now self.new result follows.new.items }
    {
        match op {
            Op::Mkdir { path } => self.mkdir(*path),
            Op::Rmdir { path } => self.rmdir(*path, looks, follows),
            Op::Write { path, text } => self.write(*path, text.as_slice(), looks, follows),
            Op::Read { path } => found(self.is_file(*path)),
            Op::List { path } => found(self.is_directory(*path)),
            Op::Flush { domain } => {
                self.flush(*domain, follows);
                Reply::Ok
            }
            Op::Tick => self.tick(looks),
            Op::Touch {
                path,
                offset,
                task,
                cpu,
            } => self.touch(*path, *offset, *task, *cpu, follows),
            Op::DropLine { addr } => {
                self.drop_line(*addr, follows);
                Reply::Ok
            }
            Op::DropRegion { path, offset } => self.drop_region(*path, *offset, follows),
            Op::Access { .. } => Reply::Ok,
        }
    }

    // Counts a command. Then the number of the next group is at most that of the commands, and that of the locks is less. The
    // tree was sound before.
    fn count(&mut self)
        requires epoch { self.old.epoch < MOST_WEIGHT }
        ensures range { InRange self.old.machine }
        ensures sound { IsSound self.old.machine self.old.state }
        ensures tree { self.new ≡ record self.old { epoch = self.old.epoch + 1 } }
        ensures gids { self.new.state.next_gid ≤ self.new.epoch }
        ensures locks { self.new.state.locks < self.new.epoch }
    {
        self.epoch += 1;
    }
}

// The reply to a read or a list of something that is there or not.
fn found(there: bool) -> Reply
    ensures { result ≡ reply_of (if there then None else Some (plain whys.NoSuchPath)) }
{
    if there {
        Reply::Ok
    } else {
        Reply::refused(Why::NoSuchPath, 0)
    }
}
