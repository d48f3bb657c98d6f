//! clflush: flushes of one line.
ghost use Rattle.std.specs.Prelude.{◌≡◌, ℕ, List, []};
ghost use Rattle.script_ops.specs.declared.op.Op.TheVariants.{DropRegion};
ghost use Rattle.tree_core.specs.Changes.{Takes};
ghost use Rattle.tree_law.specs.commands.Drop as clflush;

use super::Tree;
use crate::follow::{After, Follow, drop_all, push_only};
use path_names::PathRef;
use pseudo_lock::line_at;
use rc_base::{Reply, Why};

impl Tree {
    /// Lists what follows a flush of the line of an address: a drop in every domain.
    #[tactic(auto, unfolding(tree_law::specs::commands::Drop::after_line))]
    pub(crate) fn drop_line(&self, addr: u64, follows: &mut After)
        requires nothing { follows.old.items ≡ [] }
        ensures after { follows.new.items ≡ clflush.after_line self.now.machine addr }
    {
        drop_all(follows, self.machine.domains, addr / 64);
    }

    /// Flushes the line at an offset in bytes of the region of a pseudo-locked group: a drop follows in the region's domain.
    pub(crate) fn drop_region(&self, path: PathRef, offset: u64, follows: &mut After) -> Reply
        requires nothing { follows.old.items ≡ [] }
        ensures { (looks : List ℕ) → Takes self.now (DropRegion path offset) looks self.now result follows.new.items }
    {
        let Some(region) = self.touched(path) else {
            return Reply::refused(Why::NoSuchPath, 0);
        };
        let Some(line) = line_at(&region, &self.machine, offset) else {
            return Reply::refused(Why::PastRegion, 0);
        };
        push_only(
            follows,
            Follow::Drop {
                domain: region.domain,
                line,
            },
        );
        Reply::Ok
    }
}
