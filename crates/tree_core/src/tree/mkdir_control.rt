//! mkdir: making a control group.
ghost use Rattle.std.specs.Prelude.{◌≡◌, [], ◌≤◌, ◌<◌, ◌^◌, ◌-◌, None, Some, find, is_some, true};
ghost use Rattle.path_names.specs.declared.dirs.DirRef.TheVariants.{Ctrl};
ghost use Rattle.path_names.specs.declared.path_ref.PathRef.TheVariants.{Dir};
ghost use Rattle.script_ops.specs.declared.op.Op.TheVariants.{Mkdir};
ghost use Rattle.tree_core.specs.Changes.{MakesGroup};
ghost use Rattle.tree_core.specs.Places.{place_reasons};
ghost use Rattle.tree_law.specs.Space.{free_class, full_domain};
ghost use Rattle.tree_law.specs.Steps.{refusal};
ghost use Rattle.tree_law.specs.commands.Mkdir.{accepted, against, initial_masks};

use super::Tree;
use crate::taking::{NewIds, has_class, take_ids};
use group_tree::{Group, GroupKind};
use path_names::NameId;
use rc_base::{Gid, Mode, Reply, Why};

impl Tree {
    /// Makes a control group, where nothing is against its place. Its masks are looked for only where a class is free.
    pub(crate) fn make_control(&mut self, name: NameId) -> Reply
        requires place { find (against self.old.machine self.old.state (Dir (Ctrl name))) place_reasons ≡ None }
        requires gids { self.old.state.next_gid ≤ self.old.epoch }
        requires epoch { self.old.epoch < 2 ^ 32 - 1 }
        ensures { MakesGroup self.old (Dir (Ctrl name)) self.new result }
    {
        if self.has_class() {
            self.make_in_space(name)
        } else {
            Reply::refused(Why::OutOfClosids, 0)
        }
    }

    // Whether a class is free.
    fn has_class(&mut self) -> bool
        ensures tree { self.new ≡ self.old }
        ensures free { result ≡ is_some (free_class self.old.machine self.old.state) }
    {
        has_class(&mut self.classes)
    }

    // Makes a control group where a class is free.
    fn make_in_space(&mut self, name: NameId) -> Reply
        requires place { find (against self.old.machine self.old.state (Dir (Ctrl name))) place_reasons ≡ None }
        requires class { is_some (free_class self.old.machine self.old.state) ≡ true }
        requires gids { self.old.state.next_gid ≤ self.old.epoch }
        requires epoch { self.old.epoch < 2 ^ 32 - 1 }
        ensures { MakesGroup self.old (Dir (Ctrl name)) self.new result }
    {
        match self.new_masks() {
            Ok(masks) => self.make_with_masks(name, masks),
            Err(domain) => Reply::refused(Why::NoSpace, u64::from(domain)),
        }
    }

    // Makes a control group with these masks, which are those of a new group.
    fn make_with_masks(&mut self, name: NameId, masks: [u32; 8]) -> Reply
        requires place { find (against self.old.machine self.old.state (Dir (Ctrl name))) place_reasons ≡ None }
        requires space { full_domain self.old.machine self.old.state ≡ None }
        requires masks { masks ≡ initial_masks self.old.machine self.old.state }
        requires gids { self.old.state.next_gid ≤ self.old.epoch }
        requires epoch { self.old.epoch < 2 ^ 32 - 1 }
        ensures { MakesGroup self.old (Dir (Ctrl name)) self.new result }
    {
        match take_ids(&mut self.classes, &mut self.rmids) {
            Ok(ids) => {
                let group = control_group(Gid(self.next_gid), name, ids, masks);
                self.groups.insert(group);
                self.next_gid += 1;
                Reply::Ok
            }
            Err(reply) => reply,
        }
    }
}

// A shareable control group.
fn control_group(gid: Gid, name: NameId, ids: NewIds, masks: [u32; 8]) -> Group
    ensures { result ≡ record {
      gid = gid;
      name = Some name;
      kind = GroupKind.Control;
      mode = Mode.Shareable;
      class = Some ids.class;
      rmid = Some ids.rmid;
      masks = masks;
    } }
{
    Group {
        gid,
        name: Some(name),
        kind: GroupKind::Control,
        mode: Mode::Shareable,
        class: Some(ids.class),
        rmid: Some(ids.rmid),
        masks,
    }
}
