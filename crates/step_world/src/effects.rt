//! What a step does to a cache.
ghost use Rattle.std.specs.Prelude.{◌≡◌, ◌<◌, ◌≤◌, ◌^◌};
ghost use Rattle.cache_core.specs.Stands.{Adds};
ghost use Rattle.cache_core.specs.declared.entry.What.TheVariants.{Access};
ghost use Rattle.step_world.specs.Needs.{CanFollow, CanReach};
ghost use Rattle.run_law.specs.Owed.{undecided, what_of};

use crate::entries::access_of;
use crate::reached::Reached;
use cache_core::{Cache, What};
use rc_base::Tag;
use tree_law::Follow;

/// Makes the access of a tag that is not stale.
pub fn reach(cache: &mut Cache, tag: &Tag, line: u64) -> Reached
    requires can { CanReach cache.old.shape cache.old.rmids tag.now line }
    requires floor { cache.old.floor ≤ tag.now.epoch }
    requires clock { cache.old.clock < 2 ^ 32 }
    ensures shape { cache.new.shape ≡ cache.old.shape }
    ensures rmids { cache.new.rmids ≡ cache.old.rmids }
    ensures adds { Adds cache.old cache.new tag.now.epoch (Access result.hit result.way tag.now.owner tag.now.rmid tag.now.mask line) }
{
    match cache.access(tag, line).hit_and_way() {
        Some((hit, way)) => Reached { hit, way },
        None => unreachable!(),
    }
}

/// Does what follows a command of this epoch, and answers what its entry says. A touch is an access with the epoch of the
/// command, so that it is never stale.
pub fn enact(cache: &mut Cache, epoch: u64, follow: Follow) -> What
    requires can { CanFollow cache.old.shape cache.old.rmids follow }
    requires floor { cache.old.floor ≤ epoch }
    requires clock { cache.old.clock < 2 ^ 32 }
    ensures shape { cache.new.shape ≡ cache.old.shape }
    ensures rmids { cache.new.rmids ≡ cache.old.rmids }
    ensures adds { Adds cache.old cache.new epoch result }
    ensures owed { undecided result ≡ what_of follow }
{
    match follow {
        Follow::Raise { .. } => {
            cache.raise(epoch);
            What::Raise
        }
        Follow::Flush { .. } => {
            cache.flush(epoch);
            What::Flush
        }
        Follow::Lock {
            mask,
            first_line,
            ..
        } => {
            cache.lock(epoch, mask, first_line);
            What::Lock { mask, first_line }
        }
        Follow::Touch { tag, line } => {
            let now = Tag { epoch, ..tag };
            let reached = reach(cache, &now, line);
            access_of(&now, line, reached)
        }
        Follow::Drop { line, .. } => {
            let way = cache.drop_line(epoch, line);
            What::Drop { line, way }
        }
    }
}
