//! The steps of an access, on the parts that its thread and a lock have.
ghost use Rattle.std.specs.Prelude.{◌≡◌, ◌<◌};
ghost use Rattle.schedule_law.specs.LiveParts.{after};
ghost use Rattle.schedule_law.specs.LiveSteps.{MayRecall, MayTag, MayTagAgain, MayTouch};
ghost use Rattle.schedule_law.specs.declared.part.Happening.TheVariants.{Again, Label, Touch};
ghost use Rattle.shared_parts.specs.Parts.{parts_after, parts_where};
ghost use Rattle.shared_parts.specs.Words.{word_of};

use crate::machine_of::NamedScript;
use crate::part::{GivenTag, Happening};
use crate::sharing::Parts;
use cache_core::SliceEntry;

/// The access of a thread learns its tag under the lock of the tree, which is free.
pub fn tag<N: NamedScript>(tree: &mut Parts<N>, worker: &mut Parts<N>, lock: usize, given: GivenTag)
    requires table { tree.old.table ≡ worker.old.table }
    requires lock { word_of lock < worker.old.table.words }
    requires may { MayTag N.script tree.old.parts worker.old.parts given }
    ensures table { (tree.new.table ≡ tree.old.table) × (worker.new.table ≡ worker.old.table) }
    ensures tree { tree.new.parts ≡ tree.old.parts }
    ensures worker { worker.new.parts ≡ parts_after after (Label given) worker.old.parts }
{
    worker.step_with(lock, tree, &Happening::Label { given });
}

/// It learns the tag that its thread was given last, where no command holds the tree and none was taken since; the answer says
/// whether it does. It is one load of the word that shows that, and no lock is held. The load is the step: no command takes the tree
/// between what it finds and the tag.
pub fn recall<N: NamedScript>(worker: &mut Parts<N>, given: GivenTag) -> bool
    requires may { MayRecall N.script worker.old.parts given }
    ensures table { worker.new.table ≡ worker.old.table }
    ensures worker { worker.new.parts ≡ parts_where after (Label given) result worker.old.parts }
{
    worker.step_where(2 * given.tag.epoch, &Happening::Label { given })
}

/// It touches its line under the lock of a slice, which has the entry last, and the thread is before its next op. Neither share has a
/// part of the tree.
pub fn touch<N: NamedScript>(
    slice: &mut Parts<N>,
    worker: &mut Parts<N>,
    lock: usize,
    entry: SliceEntry,
)
    requires table { slice.old.table ≡ worker.old.table }
    requires lock { word_of lock < worker.old.table.words }
    requires may { MayTouch N.script slice.old.parts worker.old.parts entry }
    ensures table { (slice.new.table ≡ slice.old.table) × (worker.new.table ≡ worker.old.table) }
    ensures slice { slice.new.parts ≡ parts_after after (Touch entry) slice.old.parts }
    ensures worker { worker.new.parts ≡ parts_after after (Touch entry) worker.old.parts }
{
    worker.step_with(lock, slice, &Happening::Touch { entry });
}

/// It finds its tag stale under the lock of a slice, and is to learn another.
pub fn tag_again<N: NamedScript>(slice: &mut Parts<N>, worker: &mut Parts<N>, lock: usize)
    requires table { slice.old.table ≡ worker.old.table }
    requires lock { word_of lock < worker.old.table.words }
    requires may { MayTagAgain N.script slice.old.parts worker.old.parts }
    ensures table { (slice.new.table ≡ slice.old.table) × (worker.new.table ≡ worker.old.table) }
    ensures slice { slice.new.parts ≡ slice.old.parts }
    ensures worker { worker.new.parts ≡ parts_after after Again worker.old.parts }
{
    worker.step_with(lock, slice, &Happening::Again);
}
