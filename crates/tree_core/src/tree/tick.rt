//! tick: testing the RMIDs in limbo.
ghost use Rattle.std.specs.Prelude.{◌≡◌, [], length};
ghost use Rattle.rc_base.specs.declared.replies.Reply.TheVariants as replies;
ghost use Rattle.script_ops.specs.declared.op.Op.TheVariants.{Tick};
ghost use Rattle.tree_core.specs.Changes.{Takes};
ghost use Rattle.tree_law.specs.Steps.{needs};

use super::Tree;
use crate::freeing::bytes_each;
use rc_base::Reply;

impl Tree {
    /// Tests each RMID in limbo, with its counts in each domain: it is free where its bytes are at most the threshold in each
    /// (kernel documentation, "max_threshold_occupancy").
    pub(crate) fn tick(&mut self, looks: &[u64]) -> Reply
        requires looks { length looks.now ≡ length (needs self.old.machine self.old.state Tick) }
        ensures { Takes self.old Tick looks.now self.new result [] }
    {
        let bytes = bytes_each(looks, self.machine.domains, self.rmids.limbo_len());
        self.rmids.tick(bytes.as_slice());
        Reply::Ok
    }
}
