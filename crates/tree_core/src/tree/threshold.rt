//! A write of `max_threshold_occupancy`.
ghost use Rattle.std.specs.Prelude.{◌≡◌, [], ◌≤◌, ℕ, List, None, find, length};
ghost use Rattle.machine.specs.Maps.{cache_bytes, parameters_of};
ghost use Rattle.path_names.specs.declared.files.FileKind.TheVariants.{MaxThreshold};
ghost use Rattle.path_names.specs.declared.path_ref.PathRef.TheVariants.{File};
ghost use Rattle.rc_base.specs.declared.replies.Reply.TheVariants as replies;
ghost use Rattle.script_ops.specs.declared.op.Op.TheVariants.{Write};
ghost use Rattle.tree_core.specs.Changes.{Takes};
ghost use Rattle.tree_law.specs.commands.Threshold.{threshold_in};
ghost use Rattle.tree_law.specs.commands.Write.{against, reasons};

use super::Tree;
use machine::Machine;
use num_text::{read_dec, trim};
use path_names::DirRef;
use rc_base::{Reply, Why};

impl Tree {
    /// Writes `max_threshold_occupancy`: how many bytes of its lines each cache may still hold for an RMID to be free (kernel
    /// documentation, "max_threshold_occupancy").
    pub(crate) fn write_threshold(&mut self, dir: DirRef, text: &[u8]) -> Reply
        requires writable { find (against self.old.state (File dir MaxThreshold)) reasons ≡ None }
        requires short { length text.now ≤ 4096 }
        ensures { (looks : List ℕ) → Takes self.old (Write (File dir MaxThreshold) text.now) looks self.new result [] }
    {
        let _ = dir;
        match read_threshold(&self.machine, text) {
            Some(bytes) => self.put_threshold(bytes),
            None => self.answer(Reply::refused(Why::BadThreshold, 0)),
        }
    }

    // Takes a threshold of at most the bytes of one cache. The command is accepted.
    fn put_threshold(&mut self, bytes: u64) -> Reply
        requires few { bytes ≤ cache_bytes self.old.machine }
        ensures reply { result ≡ replies.Ok }
        ensures tree { self.new ≡ record self.old { state = record self.old.state { threshold = bytes; status = replies.Ok } } }
    {
        self.rmids.set_threshold(bytes);
        self.status = Reply::Ok;
        Reply::Ok
    }
}

// The number of bytes that a text names: a decimal number of at most the bytes of one cache.
#[tactic(auto, unfolding(tree_law::specs::commands::Threshold::threshold_in))]
fn read_threshold(m: &Machine, text: &[u8]) -> Option<u64>
    ensures { result ≡ threshold_in (parameters_of m.now) text.now }
{
    let bytes = read_dec(trim(text))?;
    if bytes <= m.cache_bytes() {
        Some(bytes)
    } else {
        None
    }
}
