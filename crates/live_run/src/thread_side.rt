//! A thread's side of a run.
ghost use Rattle.std.specs.Prelude.{◌≡◌, IfNone, IfSome};
ghost use Rattle.live_run.specs.CachedTags.{HoldsCached, IsNoted, IsRecalled};
ghost use Rattle.live_run.specs.Sharing.{HasStepped, IsBeforeAccess, noted_tag};
ghost use Rattle.schedule_law.specs.declared.part.Happening.TheVariants as happenings;
ghost use Rattle.script_ops.specs.Values.{IsLawful};

use crate::run_names::{NamedTable, RunNames, StepShare};
use crate::seen::Seen;
use rc_base::Tag;
use schedule_law::{GivenTag, accesses};

/// What a thread has seen of the journals and added to them, the share that has it as a part of the machine of steps, and the tag that
/// it was given last, if one since its last command.
#[derive(Drop)]
pub struct ThreadSide<N: RunNames> {
    pub(crate) seen: Seen<N>,
    pub(crate) share: StepShare<N>,
    pub(crate) cached: Option<GivenTag>,
}

impl<N: RunNames> ThreadSide<N> {
    /// The tag that the thread was given last, where that was for this task on this CPU, and the tree has taken no command since, nor
    /// does one hold it: an access learns it again, and no lock is held. It asks the tree where the answer is None.
    pub(crate) fn recall<T: NamedTable>(&mut self, task: u32, cpu: u8) -> Option<Tag>
        requires lawful { IsLawful N.script }
        requires worker { IsBeforeAccess N.script T.table task cpu self.old.seen self.old.share }
        requires cached { HoldsCached N.script self.old.seen self.old.cached }
        requires noted { IsNoted self.old.share self.old.cached }
        ensures seen { self.new.seen ≡ self.old.seen }
        ensures cached { self.new.cached ≡ self.old.cached }
        ensures tag { IfSome result (λ tag. IsRecalled N.script self.old.seen task cpu tag) }
        ensures noted { IsNoted self.new.share self.new.cached }
        ensures worker { IfSome result (λ tag. HasStepped (happenings.Label (noted_tag task cpu tag)) self.old.share self.new.share) }
        ensures none { IfNone result ((self.new.share.table ≡ self.old.share.table) × (self.new.share.parts ≡ self.old.share.parts)) }
    {
        let given = self.cached?;
        if given.task != task || given.cpu != cpu {
            return None;
        }

        // The thread may have seen more of the history since, in a slice.
        if self.seen.history_length() > given.tag.epoch {
            return None;
        }
        if accesses::recall(&mut self.share, given) {
            Some(given.tag)
        } else {
            None
        }
    }
}
