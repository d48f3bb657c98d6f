//! The end of a run.
ghost use Rattle.std.specs.Prelude.{◌≡◌, ℕ, ◌+◌, ◌<◌, ◌≤◌, [], length, slice_index_or, Vec, vec_capacity, map};
ghost use Rattle.std.specs.declared.alloc.Global.{Global as GlobalValue};
ghost use Rattle.cache_core.specs.declared.entry.SliceEntry.{SliceEntry as EntryValue};
ghost use Rattle.live_law.specs.Cells.{SliceKeeps};
ghost use Rattle.live_law.specs.SeenJournals.{SeesMore};
ghost use Rattle.live_run.specs.Cells.{AreOfThreads, made_by, taken_from, SliceCellValue, pass_in};
ghost use Rattle.live_run.specs.Closings.{AreGathered, AreRoomy, HaveOneMore, HaveAll, HaveSeenEach, HaveTakenIn, MayCloseEach};
ghost use Rattle.live_run.specs.Names.{history_of, name_at, seen_by};
ghost use Rattle.live_run.specs.Openings.{part_at};
ghost use Rattle.live_run.specs.Phases.{AreBefore, passes_at};
ghost use Rattle.live_run.specs.Sharing.{IsAtPhase};
ghost use Rattle.machine.specs.Slices.{slice_count};
ghost use Rattle.run_law.specs.Entries.{entries_of};
ghost use Rattle.run_law.specs.Runs.{IsRun};
ghost use Rattle.schedule_law.specs.Schedules.{IsScheduled};
ghost use Rattle.seen_journal.specs.Entries.{list_of};
ghost use Rattle.seen_journal.specs.Passes.{HasSeen, PassValue};

use crate::closing_room::Closing;
use crate::live::Live;
use crate::parts::Part;
use crate::passes::Passes;
use crate::run_names::{NamedTable, RunNames, ScriptOf, StepShare};
use crate::seen::Seen;
use crate::slice::SliceCell;
use crate::thread_side::ThreadSide;
use crate::tree::TreeCell;
use cache_core::SliceEntry;
use run_law::{Journals, TreeEntry};
use schedule_law::sharing::close;
use seen_journal::{Journal, Pass};

/// The journal of slice I. The tree's cell has seen it whole, and it is kept by the whole history of the tree.
pub fn settle<N: RunNames, T: NamedTable, const I: usize>(
    history: &mut Journal<TreeEntry>,
    pass: &mut Pass<SliceEntry>,
    cell: SliceCell<N, T, I>,
) -> Journal<SliceEntry>
    requires history { history.old.name ≡ N.tree }
    requires threads { AreOfThreads taken_from history.old.entries }
    requires pass { pass.old.name ≡ name_at N.slices I }
    ensures history { history.new ≡ history.old }
    ensures name { result.name ≡ name_at N.slices I }
    ensures seen { HasSeen pass.old pass.new result.entries }
    ensures threads { AreOfThreads made_by result.entries }
    ensures keeps { SliceKeeps N.script I (history_of history.old.entries) (list_of result.entries) }
{
    let SliceCell {
        cache: _,
        mut journal,
        mut tree,
        share: _,
        of: _,
    } = cell;
    history.show(&mut tree);
    journal.show(pass);
    journal
}

// Adds each pass to its list, the last pass first.
fn give_each(passes: Vec<Pass<SliceEntry>>, lists: &mut Vec<Vec<Pass<SliceEntry>>>)
    requires count { length passes.items ≡ length lists.old.items }
    requires room { (k : ℕ) (d : Vec (PassValue EntryValue) GlobalValue) → k < length lists.old.items → length (slice_index_or lists.old.items k d).items < vec_capacity (slice_index_or lists.old.items k d) }
    ensures { HaveOneMore (length passes.items) passes.items lists.old.items lists.new.items }
{
    let mut passes = passes;
    for k in 0..lists.len() {
        lists[k].push_reserved(passes.take_last());
    }
}

// Adds the passes of all threads to the list of the tree's passes, and to those of the slices', which have the room.
fn gather<N: RunNames, T: NamedTable>(
    p: Vec<Passes<N, T>>,
    trees: &mut Vec<Pass<TreeEntry>>,
    lists: &mut Vec<Vec<Pass<SliceEntry>>>,
)
    requires trees { trees.old.items ≡ [] }
    requires trees_room { length p.items ≤ vec_capacity trees.old }
    requires lists { AreRoomy (slice_count N.script.machine) (length p.items) lists.old.items }
    ensures { AreGathered N.script N.tree N.slices p.items trees.new.items lists.new.items }
{
    for passes in p {
        let Passes {
            side,
            next: _,
            looks: _,
            shown: _,
            of: _,
        } = passes;
        let ThreadSide {
            seen,
            share: _,
            cached: _,
        } = side;
        let Seen {
            thread: _,
            tree,
            slices,
            of: _,
        } = seen;
        trees.push_reserved(tree);
        give_each(slices, lists);
    }
}

// Each pass has seen the whole list of its slice.
fn show_each<N: RunNames>(parts: &mut Vec<Part<N>>, passes: &mut Vec<Pass<SliceEntry>>)
    requires count { length passes.old.items ≡ length parts.old.items }
    requires names { (i : ℕ) (d : SliceCellValue) → i < length parts.old.items → (pass_in passes.old.items i).name ≡ (part_at parts.old.items i d).journal.name }
    ensures same { parts.new.items ≡ parts.old.items }
    ensures seen { HaveSeenEach (length parts.old.items) parts.old.items passes.old.items passes.new.items }
{
    for i in 0..parts.len() {
        parts[i].show(&mut passes[i]);
    }
}

// The lists of the slices, by the threads' passes of them, those of the last slice first.
fn close_each<N: RunNames>(
    parts: Vec<Part<N>>,
    lists: Vec<Vec<Pass<SliceEntry>>>,
    into: Vec<Vec<SliceEntry>>,
) -> Vec<Vec<SliceEntry>>
    requires may { MayCloseEach parts.items lists.items }
    requires empty { into.items ≡ [] }
    requires room { length parts.items ≤ vec_capacity into }
    ensures lists { map entries_of result.items ≡ map (λ (c : SliceCellValue). list_of c.journal.entries) parts.items }
    ensures all { HaveAll (length parts.items) parts.items lists.items }
{
    let mut lists = lists;
    let mut all = into;
    for part in parts {
        let Part {
            cache: _,
            journal,
            tree: _,
            share: _,
        } = part;
        all.push_reserved(journal.close(lists.take_last()));
    }
    all
}

// The shares of all slices are taken in.
fn absorb_each<N: RunNames>(all: &mut StepShare<N>, parts: &mut Vec<Part<N>>)
    requires tables { (i : ℕ) (d : SliceCellValue) → i < length parts.old.items → (part_at parts.old.items i d).share.table ≡ all.old.table }
    ensures taken { HaveTakenIn (length parts.old.items) all.old all.new parts.old.items parts.new.items }
{
    for i in 0..parts.len() {
        parts[i].give(all);
    }
}

impl<N: RunNames, T: NamedTable> Live<N, T> {
    /// The journals of a run of which all phases were made. They are a run of the script, and each thread's entries in them are
    /// those that its passes had seen. It takes no memory.
    pub fn close(self, p: Vec<Passes<N, T>>, turn: StepShare<N>) -> Journals
        requires before { AreBefore N.script (length N.script.phases) p.items }
        requires turn { IsAtPhase N.script T.table (length N.script.phases) turn }
        ensures run { IsRun N.script result }
        ensures scheduled { IsScheduled N.script result }
        ensures own { (t : ℕ) → t < length p.items → SeesMore t (seen_by (passes_at p.items t).seen) result }
    {
        let Live {
            machine: _,
            tree,
            slices,
            closing,
        } = self;
        let TreeCell {
            tree: _,
            mut journal,
            slices: mut own,
            share: mut all,
            of: _,
        } = tree.into_inner();
        let Closing {
            mut parts,
            tree: mut trees,
            slices: mut lists,
            entries,
        } = closing.into_inner();
        slices.settle(&mut journal, &mut parts);
        show_each(&mut parts, &mut own);
        let mut turn = turn;
        all.absorb(&mut turn);
        absorb_each(&mut all, &mut parts);
        close::<ScriptOf<N>>(&mut all);
        gather(p, &mut trees, &mut lists);
        let commands = journal.close(trees);
        Journals::of(commands, close_each(parts, lists, entries))
    }
}
