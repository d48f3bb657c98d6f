//! Steps that are taken as the journals allow.

use crate::attempts::{Attempt, Wait};
use crate::jobs::Job;
use crate::moments::Moment;
use crate::search::Search;

impl Search {
    /// Takes the next step of a thread, where the journals allow it now.
    pub(crate) fn step(&mut self, thread: u32) -> Attempt {
        let op = self.next_op(thread);
        if self.moments.ops(thread) <= op {
            return Attempt::Ended;
        }
        match self.moments.of(thread, op) {
            Moment::Access {
                epoch,
                position,
                slice,
            } => {
                if self.is_tagged(thread) {
                    self.touch(thread, slice, position)
                } else {
                    self.tag(thread, epoch)
                }
            }
            Moment::Command { position } => {
                if self.holder == Some(thread) {
                    self.go_on(thread)
                } else {
                    self.take(thread, position)
                }
            }
            Moment::Unknown => Attempt::Waits(Wait::Nothing),
        }
    }

    // An access reads its tag.
    fn tag(&mut self, thread: u32, epoch: u32) -> Attempt {
        if self.holder.is_some() || self.over != epoch {
            return Attempt::Waits(Wait::Tree);
        }
        if let Some(count) = self.untagged.get_mut(epoch as usize) {
            *count = count.wrapping_sub(1);
        }
        self.set_tagged(thread, true);
        Attempt::Stepped
    }

    // An access makes its entry.
    fn touch(&mut self, thread: u32, slice: u8, position: u32) -> Attempt {
        if self.made_in(slice) != position {
            return Attempt::Waits(Wait::Entry { slice });
        }
        self.make(slice);
        self.set_tagged(thread, false);
        self.end_op(thread);
        Attempt::Stepped
    }

    // A command takes the tree.
    fn take(&mut self, thread: u32, position: u32) -> Attempt {
        if self.holder.is_some() || self.over != position {
            return Attempt::Waits(Wait::Tree);
        }
        if self.untagged.get(position as usize).copied().unwrap_or(0) != 0 {
            return Attempt::Waits(Wait::Tags { epoch: position });
        }
        self.holder = Some(thread);
        self.is_decided = false;
        Attempt::Stepped
    }

    // The command that holds the tree looks, is decided, or makes what follows.
    fn go_on(&mut self, thread: u32) -> Attempt {
        match self.next_job() {
            Some(job) if job.follows == self.is_decided => self.enter(thread, job),
            _ => self.decide(thread),
        }
    }

    // The command makes its next entry.
    fn enter(&mut self, thread: u32, job: Job) -> Attempt {
        if self.made_in(job.slice) != job.position {
            return Attempt::Waits(Wait::Entry { slice: job.slice });
        }
        self.make(job.slice);
        self.done = self.done.wrapping_add(1);
        if self.is_decided && self.next_job().is_none() {
            self.let_go(thread);
        }
        Attempt::Stepped
    }

    // The command is decided.
    fn decide(&mut self, thread: u32) -> Attempt {
        if self.is_decided {
            return Attempt::Waits(Wait::Nothing);
        }
        self.is_decided = true;
        if self.next_job().is_none() {
            self.let_go(thread);
        }
        Attempt::Stepped
    }

    // The command is over.
    fn let_go(&mut self, thread: u32) {
        self.holder = None;
        self.over = self.over.wrapping_add(1);
        self.end_op(thread);
    }

    fn make(&mut self, slice: u8) {
        if let Some(count) = self.made.get_mut(usize::from(slice)) {
            *count = count.wrapping_add(1);
        }
    }

    fn set_tagged(&mut self, thread: u32, tagged: bool) {
        if let Some(place) = self.tagged.get_mut(thread as usize) {
            *place = tagged;
        }
    }

    fn end_op(&mut self, thread: u32) {
        if let Some(op) = self.next.get_mut(thread as usize) {
            *op = op.wrapping_add(1);
        }
    }
}
