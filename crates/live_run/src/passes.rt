//! A thread's passes, between two of its ops.
ghost use Rattle.std.specs.Prelude.{◌≡◌};

use crate::run_names::{NamedTable, RunNames};
use crate::thread_side::ThreadSide;
use rc_base::TextBuf;
use run_law::LookLists;
use std::marker::{Model, PhantomData};

/// A thread's passes: what it has seen of the journals and added to them, the share that has it as a part of the machine of steps, the
/// tag that it was given last, the number of its next op, and the text of its last accepted read or list. It has the room for the texts
/// and the counts of all its commands.
#[derive(Drop)]
pub struct Passes<N: RunNames, T: NamedTable> {
    pub(crate) side: ThreadSide<N>,
    pub(crate) next: u32,
    pub(crate) looks: LookLists,
    pub(crate) shown: TextBuf,
    pub(crate) of: PhantomData<T>,
}

impl<N: RunNames, T: NamedTable> Model for Passes<N, T> {
    ghost use Rattle.live_run.specs.Names.{PassesValue};
    ghost use Rattle.live_run.specs.Passes.{PassesAreKept};
    ghost use Rattle.live_run.specs.Sharing.{begun_in};

    ghost Value = { PassesValue };

    ghost view = { λ p. record { seen = p.side.seen; next = p.next; shown = p.shown.bytes; begun = begun_in p.side.share.parts } };

    ghost invariant = { λ p. PassesAreKept N.script T.table p.side.seen p.next p.looks p.shown p.side.share p.side.cached };
}

impl<N: RunNames, T: NamedTable> Passes<N, T> {
    /// The text of the thread's last accepted read or list that `Live::command` made, and the empty text before the first.
    pub fn text(&self) -> &[u8]
        ensures { result.now ≡ self.now.shown }
    {
        self.shown.bytes()
    }
}
