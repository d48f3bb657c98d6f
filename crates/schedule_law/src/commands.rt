//! The steps of a command, on the parts that its thread and the locks have.
ghost use Rattle.std.specs.Prelude.{◌≡◌, ◌+◌, ◌*◌, ◌<◌, ◌^◌, [], ◌++◌, if◌then◌else◌};
ghost use Rattle.schedule_law.specs.LiveParts.{after};
ghost use Rattle.schedule_law.specs.LiveSteps.{MayDecide, MayFollow, MayLetGo, MayLook, MayTake};
ghost use Rattle.schedule_law.specs.declared.part.Happening.TheVariants.{Decide, Follow, Look, Take};
ghost use Rattle.shared_parts.specs.Parts.{first_of, parts_after, rest_of};
ghost use Rattle.shared_parts.specs.Words.{word_of};

use crate::machine_of::NamedScript;
use crate::part::Happening;
use crate::sharing::Parts;
use cache_core::SliceEntry;
use run_law::TreeEntry;

// What the first word shows while a command holds a tree that has taken so many.
fn held(epoch: u64) -> u64
    requires few { epoch < 2 ^ 62 }
    ensures { result ≡ 2 * epoch + 1 }
{
    2 * epoch + 1
}

// What it shows once that many were taken, where nothing follows the last, and else while it is followed.
fn decided(epoch: u64, last: bool) -> u64
    requires few { epoch < 2 ^ 62 }
    ensures { result ≡ (if last then 2 * epoch else 2 * epoch + 1) }
{
    if last { 2 * epoch } else { held(epoch) }
}

/// The command of a thread takes the tree, which is free and has taken so many, under its lock. The thread has the tree's part, before
/// its own, and from now on the first word is odd.
pub fn take<N: NamedScript>(tree: &mut Parts<N>, worker: &mut Parts<N>, epoch: u64, thread: u64)
    requires table { tree.old.table ≡ worker.old.table }
    requires may { MayTake N.script tree.old.parts worker.old.parts thread epoch }
    ensures table { (tree.new.table ≡ tree.old.table) × (worker.new.table ≡ worker.old.table) }
    ensures tree { tree.new.parts ≡ [] }
    ensures worker { worker.new.parts ≡ parts_after after (Take thread) (tree.old.parts ++ worker.old.parts) }
{
    worker.absorb(tree);
    worker.step_shown(2 * epoch, held(epoch), &Happening::Take { thread });
}

/// It looks in a slice, under its lock, and the slice has the entry last.
pub fn look<N: NamedScript>(
    slice: &mut Parts<N>,
    worker: &mut Parts<N>,
    lock: usize,
    entry: SliceEntry,
)
    requires table { slice.old.table ≡ worker.old.table }
    requires lock { word_of lock < worker.old.table.words }
    requires may { MayLook N.script slice.old.parts worker.old.parts entry }
    ensures table { (slice.new.table ≡ slice.old.table) × (worker.new.table ≡ worker.old.table) }
    ensures slice { slice.new.parts ≡ parts_after after (Look entry) slice.old.parts }
    ensures worker { worker.new.parts ≡ parts_after after (Look entry) worker.old.parts }
{
    worker.step_with(lock, slice, &Happening::Look { entry });
}

/// It is decided after so many looks, and the entry, which is given back, goes last in the tree's history, which had so many before.
/// Where nothing follows it, the tree is let go.
pub fn decide<N: NamedScript>(
    worker: &mut Parts<N>,
    epoch: u64,
    command: TreeEntry,
    last: bool,
    made: u64,
) -> TreeEntry
    requires may { MayDecide N.script worker.old.parts command last made epoch }
    ensures table { worker.new.table ≡ worker.old.table }
    ensures worker { worker.new.parts ≡ parts_after after (Decide command last made) worker.old.parts }
    ensures command { result ≡ command }
{
    let happening = Happening::Decide {
        command,
        last,
        made,
    };
    worker.step_shown(held(epoch), decided(epoch + 1, last), &happening);
    let Happening::Decide { command, .. } = happening else {
        unreachable!()
    };
    command
}

/// What follows it is done in a slice, under its lock, and the slice has the entry last. After the last one the tree is let go.
pub fn follow<N: NamedScript>(
    slice: &mut Parts<N>,
    worker: &mut Parts<N>,
    lock: usize,
    entry: SliceEntry,
    last: bool,
)
    requires table { slice.old.table ≡ worker.old.table }
    requires lock { word_of lock < worker.old.table.words }
    requires may { MayFollow N.script slice.old.parts worker.old.parts entry last }
    ensures table { (slice.new.table ≡ slice.old.table) × (worker.new.table ≡ worker.old.table) }
    ensures slice { slice.new.parts ≡ parts_after after (Follow entry last) slice.old.parts }
    ensures worker { worker.new.parts ≡ parts_after after (Follow entry last) worker.old.parts }
{
    let happening = Happening::Follow { entry, last };
    if last {
        let epoch = entry.epoch;
        worker.step_with_shown(held(epoch), 2 * epoch, slice, &happening);
    } else {
        worker.step_with(lock, slice, &happening);
    }
}

/// The thread, whose command has let the tree go, gives its part back to the share under the tree's lock.
pub fn release<N: NamedScript>(tree: &mut Parts<N>, worker: &mut Parts<N>)
    requires table { tree.old.table ≡ worker.old.table }
    requires may { MayLetGo tree.old.parts worker.old.parts }
    ensures table { (tree.new.table ≡ tree.old.table) × (worker.new.table ≡ worker.old.table) }
    ensures tree { tree.new.parts ≡ first_of worker.old.parts }
    ensures worker { worker.new.parts ≡ rest_of worker.old.parts }
{
    worker.hand_first(tree);
}
