//! The caches that a kind of pair scripts is played on.
ghost use Rattle.std.specs.Prelude.{◌≡◌, ℕ, ◌+◌, OnOk, Some};
ghost use Rattle.pair_text.specs.Values.{PairScriptValue, op_at};
ghost use Rattle.pair_text.specs.declared.op.PairOp.{PairOp as OpValue};
ghost use Rattle.pair_play.specs.Playing.{IsFlushAt, IsNextFlush, IsNextUse, IsOther, IsUseAt};

use pair_tree::PairTag;
use rc_base::NoMemory;

/// The caches that a kind of pair scripts is played on, with their histories so far: what a use of a line asks of them, and a flush.
pub trait Caches: Drop {
    /// The caches after the first ops of a script of the kind.
    ghost so_far: { PairScriptValue → ℕ → Self → Type 0 };

    /// Makes the use that an op is, with the tag that the groups give it.
    fn make_use(&mut self, op: u32, tag: &PairTag, line: u64, code: bool) -> Result<(), NoMemory>
        requires { IsNextUse so_far op tag.now line code self.old }
        ensures { OnOk result ((script : PairScriptValue) → so_far script op self.old → IsUseAt script op tag.now line code → so_far script (op + 1) self.new) };

    /// Empties all caches, for an op that is a flush. After it the epoch is this.
    fn flush(&mut self, op: u32, epoch: u64) -> Result<(), NoMemory>
        requires { IsNextFlush so_far op epoch self.old }
        ensures { OnOk result ((script : PairScriptValue) → so_far script op self.old → IsFlushAt script op epoch → so_far script (op + 1) self.new) };

    /// Other ops change nothing in the caches.
    ghost goes_on: { (script : PairScriptValue) (i : ℕ) (op : OpValue) (caches : Self) → so_far script i caches → op_at script i ≡ Some op → IsOther op → so_far script (i + 1) caches };
}
