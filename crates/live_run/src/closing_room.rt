//! The room for what is made at the end of a run.
ghost use Rattle.std.specs.Prelude.{◌≡◌, IfOk};
ghost use Rattle.live_run.specs.Closings.{AreRoomy};

use crate::parts::Part;
use crate::run_names::RunNames;
use cache_core::SliceEntry;
use rc_base::NoMemory;
use run_law::TreeEntry;
use script_ops::Script;
use seen_journal::Pass;
use std::alloc::Global;
use std::marker::Model;

/// The room for what goes out of the cells of the slices, for the threads' passes of each journal, and for the lists of the slices.
#[derive(Drop)]
pub(crate) struct Closing<N: RunNames> {
    pub(crate) parts: Vec<Part<N>>,
    pub(crate) tree: Vec<Pass<TreeEntry>>,
    pub(crate) slices: Vec<Vec<Pass<SliceEntry>>>,
    pub(crate) entries: Vec<Vec<SliceEntry>>,
}

impl<N: RunNames> Model for Closing<N> {
    ghost use Rattle.live_run.specs.Closings.{HaveClosingRoom};

    ghost Value = { Unit {0} };

    ghost view = { λ c. tt };

    ghost invariant = { λ c. HaveClosingRoom N.script c.parts c.tree c.slices c.entries };
}

// So many empty lists, each with room for so many.
fn lists<E: Drop>(alloc: Global, count: usize, room: usize) -> Result<Vec<Vec<E>>, NoMemory>
    ensures { IfOk result (λ lists. AreRoomy count room lists.items) }
{
    let mut lists = Vec::with_capacity(alloc, count)?;
    for _ in 0..count {
        lists.push(Vec::with_capacity(alloc, room)?)?;
    }
    Ok(lists)
}

impl<N: RunNames> Closing<N> {
    /// The room. NoMemory where there is none.
    pub(crate) fn create(alloc: Global, script: &Script) -> Result<Closing<N>, NoMemory>
        requires { script.now ≡ N.script }
    {
        let count = usize::from(script.machine().slice_count());
        let threads = script.threads() as usize;
        let parts = Vec::with_capacity(alloc, count)?;
        let tree = Vec::with_capacity(alloc, threads)?;
        let slices = lists(alloc, count, threads)?;
        let entries = Vec::with_capacity(alloc, count)?;
        Ok(Closing {
            parts,
            tree,
            slices,
            entries,
        })
    }
}
