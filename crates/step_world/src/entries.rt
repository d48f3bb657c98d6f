//! What the entry of a step says.
ghost use Rattle.std.specs.Prelude.{◌≡◌};
ghost use Rattle.cache_core.specs.Stands.{entry as entry_of};
ghost use Rattle.cache_core.specs.declared.entry.What.TheVariants.{Access};

use crate::reached::Reached;
use cache_core::{SliceEntry, What};
use rc_base::Tag;

/// What the entry of an access with this tag says.
pub fn access_of(tag: &Tag, line: u64, reached: Reached) -> What
    ensures { result ≡ Access reached.hit reached.way tag.now.owner tag.now.rmid tag.now.mask line }
{
    What::Access {
        owner: tag.owner,
        rmid: tag.rmid,
        mask: tag.mask,
        line,
        hit: reached.hit,
        way: reached.way,
    }
}

/// The entry of a step of an op of a thread.
pub fn entry(thread: u32, op: u32, epoch: u64, what: What) -> SliceEntry
    ensures { result ≡ entry_of thread op epoch what }
{
    SliceEntry {
        thread,
        op,
        epoch,
        what,
    }
}
