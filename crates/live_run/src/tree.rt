//! The tree's cell.
ghost use Rattle.std.specs.Prelude.{◌≡◌, ◌+◌, ◌<◌, ◌≤◌, ◌^◌, [], ◌∷◌, Contains, IsTrue, None, Some, length, true};
ghost use Rattle.live_law.specs.SeenJournals.{HasGrown};
ghost use Rattle.live_law.specs.Stages.{HoldsTag, IsReady};
ghost use Rattle.live_run.specs.Commands.{HasReplied};
ghost use Rattle.live_run.specs.CachedTags.{HoldsCached, IsNoted};
ghost use Rattle.live_run.specs.Names.{seen_by};
ghost use Rattle.live_run.specs.Openings.{AreNew};
ghost use Rattle.live_run.specs.Sharing.{HasStepped, IsBeforeAccess, IsResting, IsShareOf, noted_tag};
ghost use Rattle.live_run.specs.Steps.{HasTaken};
ghost use Rattle.machine.specs.Slices.{slice_count};
ghost use Rattle.rc_base.specs.declared.text_buf.TheConstants.{TEXT_MAX};
ghost use Rattle.run_law.specs.Ops.{is_command};
ghost use Rattle.run_law.specs.Quotas.{command_count, most_counts};
ghost use Rattle.schedule_law.specs.LiveParts.{live_tree};
ghost use Rattle.schedule_law.specs.declared.part.Happening.TheVariants as happenings;
ghost use Rattle.script_ops.specs.Values.{IsLawful, op_at, threads_of};

use crate::around_tree::AroundTree;
use crate::asked_command::AskedCommand;
use crate::cached_tag::{current_tag, tag_of};
use crate::command::{follow_all, look_all, show};
use crate::run_names::{NamedTable, RunNames, StepShare, TREE_LOCK};
use crate::seen::{decide, release, take, take_unless};
use crate::thread_side::ThreadSide;
use crate::turn::CommandTurn;
use cache_core::SliceEntry;
use rc_base::{LookList, NoMemory, Reply, Tag, TextBuf};
use run_law::TreeEntry;
use schedule_law::{GivenTag, accesses, commands};
use script_ops::Script;
use seen_journal::{Journal, Pass};
use std::alloc::Global;
use std::marker::{Model, PhantomData};
use std::sync::Wait;
use tree_core::Tree;

/// What lies under the tree's lock: the tree, its journal, a pass of each slice's journal, and the share that has the journal as a
/// part of the machine of steps.
#[derive(Drop)]
pub struct TreeCell<N: RunNames, T: NamedTable> {
    pub(crate) tree: Tree,
    pub(crate) journal: Journal<TreeEntry>,
    pub(crate) slices: Vec<Pass<SliceEntry>>,
    pub(crate) share: StepShare<N>,
    pub(crate) of: PhantomData<T>,
}

impl<N: RunNames, T: NamedTable> Model for TreeCell<N, T> {
    ghost use Rattle.live_run.specs.Cells.{TreeCellValue, TreeIsKept};

    ghost Value = { TreeCellValue };

    ghost view = { λ c. record { tree = c.tree; journal = c.journal; slices = c.slices.items; share = c.share } };

    ghost invariant = { λ c. TreeIsKept N.script T.table N.tree N.slices (record { tree = c.tree; journal = c.journal; slices = c.slices.items; share = c.share }) };
}

impl<N: RunNames, T: NamedTable> TreeCell<N, T> {
    /// The cell before the first op: the opening tree, its journal, and a pass of each slice's journal. NoMemory where there is no
    /// room for the tree.
    pub(crate) fn open(
        alloc: Global,
        script: &Script,
        journal: Journal<TreeEntry>,
        slices: Vec<Pass<SliceEntry>>,
        share: StepShare<N>,
    ) -> Result<TreeCell<N, T>, NoMemory>
        requires script { script.now ≡ N.script }
        requires lawful { IsLawful N.script }
        requires name { journal.name ≡ N.tree }
        requires empty { journal.entries ≡ [] }
        requires slices { AreNew N.slices (slice_count N.script.machine) (length (threads_of N.script)) slices.items }
        requires share { IsShareOf T.table (live_tree [] None ∷ []) share }
    {
        let tree = Tree::create(alloc, script.machine(), script.tasks())?;
        Ok(TreeCell {
            tree,
            journal,
            slices,
            share,
            of: PhantomData,
        })
    }

    /// An access learns its tag: the thread has seen the tree's whole history, and what all its commands have made. Where the tree has
    /// taken no command since it gave the cached tag, the thread had seen both by then. No command holds the tree now, as its lock is
    /// held here.
    pub(crate) fn tag(&mut self, side: &mut ThreadSide<N>, task: u32, cpu: u8) -> Tag
        requires task { Contains N.script.tasks task }
        requires cpu { cpu < N.script.machine.cpus }
        requires worker { IsBeforeAccess N.script T.table task cpu side.old.seen side.old.share }
        requires cached { HoldsCached N.script side.old.seen side.old.cached }
        ensures cached_now { HoldsCached N.script side.new.seen side.new.cached }
        ensures noted_now { IsNoted side.new.share side.new.cached }
        ensures taken { HasTaken side.old.seen side.new.seen }
        ensures tag { HoldsTag N.script (seen_by side.new.seen) task cpu result }
        ensures fresh { length side.old.seen.tree.seen ≤ result.epoch }
        ensures most { result.epoch ≤ command_count N.script }
        ensures known { result.rmid < N.script.machine.rmids }
        ensures valid { (0 < result.mask) × (result.mask < 2 ^ N.script.machine.ways) }
        ensures worker { HasStepped (happenings.Label (noted_tag task cpu result)) side.old.share side.new.share }
    {
        let current = current_tag(&side.cached, &self.tree);
        take_unless(
            current.is_some(),
            &mut self.journal,
            &mut self.slices,
            &mut side.seen,
        );
        let tag = tag_of(&self.tree, &current, task, cpu);
        let given = GivenTag { task, cpu, tag };
        side.cached = Some(given);
        accesses::tag(&mut self.share, &mut side.share, TREE_LOCK, given);
        tag
    }

    /// A command: it looks in the slices for the counts that it needs, is decided, and is let go when all that follows it is entered.
    /// The text of a read or list is made only where it is asked for.
    pub(crate) fn command<R: Wait>(
        &mut self,
        around: &AroundTree<'_, R, N, T>,
        side: &mut ThreadSide<N>,
        command: &AskedCommand<'_>,
        mut looks: LookList,
        shown: &mut TextBuf,
    ) -> Reply
        requires script { around.now.script.now ≡ N.script }
        requires op { op_at N.script side.old.seen.thread command.now.number ≡ Some command.now.op.now }
        requires command { IsTrue (is_command command.now.op.now) }
        requires looks { looks.numbers ≡ [] }
        requires list { most_counts N.script.machine command.now.op.now ≤ looks.spare }
        requires room { TEXT_MAX ≤ shown.old.spare + length shown.old.bytes }
        requires ready { IsReady N.script side.old.seen.thread command.now.number (seen_by side.old.seen) }
        requires worker { IsResting T.table side.old.seen.thread command.now.number true side.old.share }
        ensures thread { side.new.seen.thread ≡ side.old.seen.thread }
        ensures seen { HasGrown (seen_by side.old.seen) (seen_by side.new.seen) }
        ensures ready { IsReady N.script side.old.seen.thread (command.now.number + 1) (seen_by side.new.seen) }
        ensures reply { HasReplied N.script command.now.is_text_asked command.now.op.now result (record { seen = side.old.seen; next = command.now.number; shown = shown.old.bytes; begun = true }) (record { seen = side.new.seen; next = command.now.number + 1; shown = shown.new.bytes; begun = true }) }
        ensures room { shown.new.spare + length shown.new.bytes ≡ shown.old.spare + length shown.old.bytes }
        ensures worker { IsResting T.table side.old.seen.thread (command.now.number + 1) true side.new.share }
    {
        take(&mut self.journal, &mut self.slices, &mut side.seen);
        let before = self.tree.epoch();
        commands::take(
            &mut self.share,
            &mut side.share,
            before,
            u64::from(side.seen.thread()),
        );
        let m = around.script.machine();
        let counts = self.tree.counts(command.op);
        let turn = CommandTurn {
            op: command.op,
            number: command.number,
            epoch: before,
        };
        look_all(around, &mut self.journal, side, &turn, &counts, &mut looks);
        let (reply, after) = self.tree.apply(command.op, looks.items());
        show(
            &self.tree,
            around.script,
            command,
            looks.items(),
            reply,
            shown,
        );
        let entry = TreeEntry {
            thread: side.seen.thread(),
            op: command.number,
            reply,
            looks,
        };
        let made = counts.len() as u64 * u64::from(m.slices);
        let entry = commands::decide(&mut side.share, before, entry, after.is_empty(), made);
        decide(&mut self.journal, &mut side.seen, entry);
        let epoch = self.tree.epoch();
        let turn = CommandTurn { epoch, ..turn };
        follow_all(around, &mut self.journal, side, &turn, after.as_slice());
        release(&mut self.slices, &mut side.seen);
        commands::release(&mut self.share, &mut side.share);
        reply
    }
}
