//! A slice's cell.
ghost use Rattle.std.specs.Prelude.{◌≡◌, ◌≤◌};
ghost use Rattle.cache_core.specs.Stands.{entry as entry_of};
ghost use Rattle.cache_core.specs.declared.entry.What.TheVariants.{Look};
ghost use Rattle.live_run.specs.Cells.{AreOfThreads, SliceIsKept, taken_from};
ghost use Rattle.live_run.specs.Names.{name_at};
ghost use Rattle.live_run.specs.Sharing.{HasFollowedOn, HasReached, HasStepped, IsNextCount, IsNextFollow, IsTagged};
ghost use Rattle.live_run.specs.Steps.{HasAdded, HasFollowed, HasTouched};
ghost use Rattle.live_run.specs.Visits.{MayFollow, MayLook, MayTouch};
ghost use Rattle.schedule_law.specs.declared.part.Happening.TheVariants as happenings;

use crate::access::Hold;
use crate::parts::Part;
use crate::run_names::{NamedTable, RunNames, StepShare};
use crate::seen::{meet, note};
use crate::thread_side::ThreadSide;
use crate::turn::{CommandFollow, CommandLook, TaggedAccess};
use cache_core::{Cache, SliceEntry, What};
use run_law::TreeEntry;
use schedule_law::{accesses, commands};
use seen_journal::{Journal, Pass};
use std::marker::{Model, PhantomData};
use step_world::{Reached, access_of, enact, entry, reach};

/// What lies under the lock of slice I: its cache, its journal, a pass of the tree's journal, and the share that has the journal as a
/// part of the machine of steps.
#[derive(Drop)]
pub struct SliceCell<N: RunNames, T: NamedTable, const I: usize> {
    pub(crate) cache: Cache,
    pub(crate) journal: Journal<SliceEntry>,
    pub(crate) tree: Pass<TreeEntry>,
    pub(crate) share: StepShare<N>,
    pub(crate) of: PhantomData<T>,
}

impl<N: RunNames, T: NamedTable, const I: usize> Model for SliceCell<N, T, I> {
    ghost use Rattle.live_run.specs.Names.{name_at};
    ghost use Rattle.live_run.specs.Cells.{SliceCellValue, SliceIsKept};

    ghost Value = { SliceCellValue };

    ghost view = { λ c. record { cache = c.cache; journal = c.journal; tree = c.tree; share = c.share } };

    ghost invariant = { λ c. SliceIsKept N.script T.table N.tree (name_at N.slices I) I (record { cache = c.cache; journal = c.journal; tree = c.tree; share = c.share }) };
}

impl<N: RunNames, T: NamedTable, const I: usize> SliceCell<N, T, I> {
    /// The cell of what goes into it.
    pub(crate) fn open(part: Part<N>) -> SliceCell<N, T, I>
        requires { SliceIsKept N.script T.table N.tree (name_at N.slices I) I part }
    {
        let Part {
            cache,
            journal,
            tree,
            share,
        } = part;
        SliceCell {
            cache,
            journal,
            tree,
            share,
            of: PhantomData,
        }
    }

    /// What was in the cell, which has now seen the tree's whole history.
    pub(crate) fn settle(self, history: &mut Journal<TreeEntry>) -> Part<N>
        requires name { history.old.name ≡ N.tree }
        requires threads { AreOfThreads taken_from history.old.entries }
        ensures history { history.new ≡ history.old }
        ensures kept { SliceIsKept N.script T.table N.tree (name_at N.slices I) I result }
        ensures seen { result.tree.seen ≡ history.old.entries }
    {
        let SliceCell {
            cache,
            journal,
            mut tree,
            share,
            of: _,
        } = self;
        history.show(&mut tree);
        Part {
            cache,
            journal,
            tree,
            share,
        }
    }

    /// Counts the lines of an RMID for the command that holds the tree, and notes the look.
    pub(crate) fn look(
        &mut self,
        history: &mut Journal<TreeEntry>,
        side: &mut ThreadSide<N>,
        look: CommandLook,
    ) -> u64
        requires may { MayLook N.script N.tree I look.number look.epoch look.rmid history.old side.old.seen }
        requires next { IsNextCount N.script T.table I look.number look.rmid history.old side.old.seen side.old.share }
        ensures few { result ≤ 2097152 }
        ensures history { history.new ≡ history.old }
        ensures tree { side.new.seen.tree ≡ side.old.seen.tree }
        ensures added { HasAdded I (entry_of side.old.seen.thread look.number look.epoch (Look look.rmid result)) side.old.seen side.new.seen }
        ensures worker { HasStepped (happenings.Look (entry_of side.old.seen.thread look.number look.epoch (Look look.rmid result))) side.old.share side.new.share }
    {
        history.show(&mut self.tree);
        let lines = self.cache.look(look.rmid);
        let what = What::Look {
            rmid: look.rmid,
            lines,
        };
        let entry = entry(side.seen.thread(), look.number, look.epoch, what);
        note::<N, I>(&mut self.journal, &mut side.seen, entry);
        commands::look(&mut self.share, &mut side.share, I, entry);
        lines
    }

    /// Does what follows the command that holds the tree, and notes it.
    pub(crate) fn follow(
        &mut self,
        history: &mut Journal<TreeEntry>,
        side: &mut ThreadSide<N>,
        step: CommandFollow,
    )
        requires may { MayFollow N.script N.tree I step.number step.epoch step.follow history.old side.old.seen }
        requires next { IsNextFollow N.script T.table I step.number step.epoch step.follow step.is_last history.old side.old.seen side.old.share }
        ensures history { history.new ≡ history.old }
        ensures tree { side.new.seen.tree ≡ side.old.seen.tree }
        ensures followed { HasFollowed I step.number step.epoch step.follow side.old.seen side.new.seen }
        ensures worker { HasFollowedOn step.is_last side.old.share side.new.share }
    {
        history.show(&mut self.tree);
        let what = enact(&mut self.cache, step.epoch, step.follow);
        let entry = entry(side.seen.thread(), step.number, step.epoch, what);
        note::<N, I>(&mut self.journal, &mut side.seen, entry);
        commands::follow(&mut self.share, &mut side.share, I, entry, step.is_last);
    }

    /// Makes the access of a tag, and notes it, unless the tag is stale; then the thread has seen a longer history of the tree.
    pub(crate) fn touch<H: Hold>(
        &mut self,
        hold: &H,
        side: &mut ThreadSide<N>,
        access: &TaggedAccess,
    ) -> Option<Reached>
        requires may { MayTouch N.script I access.now.number access.now.tag access.now.line side.old.seen }
        requires tagged { IsTagged N.script T.table I access.now.number access.now.tag access.now.line side.old.seen side.old.share }
        ensures touched { HasTouched I access.now.number access.now.tag access.now.line side.old.seen side.new.seen result }
        ensures cached { side.new.cached ≡ side.old.cached }
        ensures worker { HasReached side.old.seen.thread access.now.number access.now.tag access.now.line result side.old.share side.new.share }
    {
        let TaggedAccess {
            slice: _,
            number,
            tag,
            line,
        } = access;
        meet(&mut self.tree, &mut side.seen);
        if tag.epoch < self.cache.floor() {
            accesses::tag_again(&mut self.share, &mut side.share, I);
            return None;
        }
        hold.hold(side.seen.thread());
        let reached = reach(&mut self.cache, tag, *line);
        let what = access_of(tag, *line, reached);
        let entry = entry(side.seen.thread(), *number, tag.epoch, what);
        note::<N, I>(&mut self.journal, &mut side.seen, entry);
        accesses::touch(&mut self.share, &mut side.share, I, entry);
        Some(reached)
    }
}
