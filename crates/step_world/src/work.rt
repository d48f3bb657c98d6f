//! The work of the command that holds the tree.
ghost use Rattle.std.specs.Prelude.{◌≡◌, ◌<◌, ◌^◌, [], IfSome, IsSome, None, Some, length, slice_get};
ghost use Rattle.step_world.specs.Works.{FollowsOn};

use tree_core::{After, Counts};

/// What the command that holds the tree has to do, and how far it has come.
#[derive(Drop)]
pub struct Work {
    /// The counts that it needs, while it looks.
    pub(crate) counts: Option<Counts>,
    /// How many these are.
    pub(crate) count: u32,
    /// What follows it, after it was decided.
    pub(crate) after: After,
    /// The number of the present count, or follow-up.
    pub(crate) at: u32,
    /// The present slice of its domain.
    pub(crate) slice: u8,
    /// The lines of the present count in the slices before this one.
    pub(crate) lines: u64,
}

impl Work {
    /// No work.
    pub(crate) fn none() -> Work
        ensures counts { result.counts ≡ None }
        ensures after { result.after.items ≡ [] }
    {
        Work {
            counts: None,
            count: 0,
            after: After::new(),
            at: 0,
            slice: 0,
            lines: 0,
        }
    }

    /// The domain and the RMID of the present count.
    pub(crate) fn need(&self) -> (u8, u16)
        requires looks { IsSome self.now.counts }
        requires within { IfSome self.now.counts (λ counts. self.now.at < length counts) }
        ensures { IfSome self.now.counts (λ counts. slice_get counts self.now.at ≡ Some result) }
    {
        match &self.counts {
            Some(counts) => counts.at(self.at),
            None => unreachable!(),
        }
    }

    /// A command needs these counts. Where it needs none, nothing is copied.
    pub(crate) fn look_for(&mut self, counts: Counts)
        ensures counts { 0 < self.new.count → self.new.counts ≡ Some counts }
        ensures count { self.new.count ≡ length counts }
        ensures few { self.new.count < 2 ^ 32 }
        ensures at { self.new.at ≡ 0 }
        ensures slice { self.new.slice ≡ 0 }
        ensures lines { self.new.lines ≡ 0 }
    {
        self.count = counts.len();
        if self.count > 0 {
            self.counts = Some(counts);
        }
        self.at = 0;
        self.slice = 0;
        self.lines = 0;
    }

    /// This follows the command, which was decided. Where nothing does, nothing is copied.
    pub(crate) fn follow_with(&mut self, after: After)
        ensures after { self.new.after.items ≡ after.items }
        ensures at { self.new.at ≡ 0 }
        ensures slice { self.new.slice ≡ 0 }
    {
        if after.is_empty() {
            self.after.clear();
        } else {
            self.after = after;
        }
        self.at = 0;
        self.slice = 0;
    }

    /// Goes on to the next of the `slices` slices of the present follow-up, and after the last to the next follow-up.
    pub(crate) fn follow_on(&mut self, slices: u8)
        requires at { self.old.at < 2 ^ 31 }
        requires slice { self.old.slice < slices }
        ensures { FollowsOn slices self.old self.new }
    {
        self.slice += 1;
        if self.slice == slices {
            self.slice = 0;
            self.at += 1;
        }
    }
}
