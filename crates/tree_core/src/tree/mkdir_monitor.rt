//! mkdir: making a monitor group.
ghost use Rattle.std.specs.Prelude.{◌≡◌, [], ◌≤◌, ◌<◌, ◌^◌, ◌-◌, None, Some, find, replicate};
ghost use Rattle.path_names.specs.declared.dirs.DirRef.TheVariants.{Mon};
ghost use Rattle.path_names.specs.declared.path_ref.PathRef.TheVariants.{Dir};
ghost use Rattle.script_ops.specs.declared.op.Op.TheVariants.{Mkdir};
ghost use Rattle.tree_core.specs.Changes.{MakesGroup};
ghost use Rattle.tree_core.specs.Places.{place_reasons};
ghost use Rattle.tree_law.specs.Steps.{refusal};
ghost use Rattle.tree_law.specs.commands.Mkdir.{accepted, against};

use super::Tree;
use crate::taking::take_rmid;
use group_tree::{Group, GroupKind};
use path_names::{NameId, Owner};
use rc_base::{Gid, Mode, Reply, Why};

impl Tree {
    /// Makes a monitor group, where nothing is against its place.
    pub(crate) fn make_monitor(&mut self, owner: Owner, name: NameId) -> Reply
        requires place { find (against self.old.machine self.old.state (Dir (Mon owner name))) place_reasons ≡ None }
        requires gids { self.old.state.next_gid ≤ self.old.epoch }
        requires epoch { self.old.epoch < 2 ^ 32 - 1 }
        ensures { MakesGroup self.old (Dir (Mon owner name)) self.new result }
    {
        let Some(parent) = self.owner_gid(owner) else {
            unreachable!()
        };
        if self.is_closed_control(parent) {
            return Reply::refused(Why::Locking, 0);
        }
        match take_rmid(&mut self.rmids) {
            Ok(rmid) => {
                let group = monitor_group(Gid(self.next_gid), name, parent, rmid);
                self.groups.insert(group);
                self.next_gid += 1;
                Reply::Ok
            }
            Err(reply) => reply,
        }
    }
}

// A monitor group.
fn monitor_group(gid: Gid, name: NameId, parent: Gid, rmid: u16) -> Group
    ensures { result ≡ record {
      gid = gid;
      name = Some name;
      kind = GroupKind.Monitor parent;
      mode = Mode.Shareable;
      class = None;
      rmid = Some rmid;
      masks = replicate 8 0;
    } }
{
    Group {
        gid,
        name: Some(name),
        kind: GroupKind::Monitor { parent },
        mode: Mode::Shareable,
        class: None,
        rmid: Some(rmid),
        masks: [0; 8],
    }
}
