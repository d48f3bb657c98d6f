//! The tag that a thread was given last.
ghost use Rattle.std.specs.Prelude.{◌≡◌, ◌<◌, Contains, IfSome, IsSomeAnd, Some};
ghost use Rattle.live_run.specs.CachedTags.{IsGiven};
ghost use Rattle.tree_law.specs.State.{tasks_of};

use rc_base::Tag;
use schedule_law::GivenTag;
use tree_core::Tree;

/// The cached tag, where the tree has taken no command since it gave that. It is to be called with the tree's lock held: a command
/// holds that from its first look to its last follow-up, so that none is under way, and the epoch says how many were taken.
pub(crate) fn current_tag(cached: &Option<GivenTag>, tree: &Tree) -> Option<GivenTag>
    ensures cached { IfSome result (λ k. cached.now ≡ Some k) }
    ensures epoch { IfSome result (λ k. k.tag.epoch ≡ tree.now.epoch) }
{
    let epoch = tree.epoch();
    match cached {
        Some(cached) if cached.tag.epoch == epoch => Some(*cached),
        _ => None,
    }
}

// The current tag, where it is of this task on this CPU.
fn tag_for(current: &Option<GivenTag>, task: u32, cpu: u8) -> Option<Tag>
    ensures { IfSome result (λ tag. IsSomeAnd current.now (λ k. (k.task ≡ task) × (k.cpu ≡ cpu) × (k.tag ≡ tag))) }
{
    match current {
        Some(current) if current.task == task && current.cpu == cpu => Some(current.tag),
        _ => None,
    }
}

/// The tag that a tree gives to a task on a CPU. One that is current is not found again.
pub(crate) fn tag_of(tree: &Tree, current: &Option<GivenTag>, task: u32, cpu: u8) -> Tag
    requires task { Contains (tasks_of tree.now.state) task }
    requires cpu { cpu < tree.now.machine.cpus }
    requires current { IfSome current.now (λ k. IsGiven tree.now k.task k.cpu k.tag) }
    ensures { IsGiven tree.now task cpu result }
{
    match tag_for(current, task, cpu) {
        Some(tag) => tag,
        None => tree.resolve(task, cpu),
    }
}
