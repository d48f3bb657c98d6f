//! Taking groups out of the tree.
ghost use Rattle.std.specs.Prelude.{◌≡◌, ◌≢◌, ◌<◌, length, slice_index_or, true};
ghost use Rattle.std.specs.List.{All};
ghost use Rattle.group_tree.specs.Records.{is_monitor_of};
ghost use Rattle.group_tree.specs.declared.group.Group.{Group};
ghost use Rattle.tree_core.specs.Removals.{monitor_gid, off_monitors, without_if_monitor};

use group_tree::{GroupKind, Groups};
use rc_base::Gid;

/// Removes the monitor groups of a control group.
pub(crate) fn remove_monitors(groups: &mut Groups, control: Gid)
    requires default { All (λ (g : Group). is_monitor_of control g.kind ≡ true → g.gid.0 ≢ 0) groups.old.groups }
    ensures groups { groups.new.groups ≡ off_monitors control groups.old.groups }
    ensures shareable { groups.new.shareable ≡ groups.old.shareable }
{
    let count = groups.len();
    for k in 0..count {
        remove_if_monitor(groups, control, count - 1 - k);
    }
}

// Removes the i-th group, where it is a monitor group of this control group.
fn remove_if_monitor(groups: &mut Groups, control: Gid, i: u32)
    requires within { i < length groups.old.groups }
    requires default { All (λ (g : Group). is_monitor_of control g.kind ≡ true → g.gid.0 ≢ 0) groups.old.groups }
    ensures groups { groups.new.groups ≡ without_if_monitor control i groups.old.groups }
    ensures shareable { groups.new.shareable ≡ groups.old.shareable }
{
    if let Some(gid) = monitor_at(groups, control, i) {
        groups.remove(gid);
    }
}

// The gid of the i-th group, where it is a monitor group of this control group.
fn monitor_at(groups: &Groups, control: Gid, i: u32) -> Option<Gid>
    requires within { i < length groups.now.groups }
    ensures { (d : Group) → result ≡ monitor_gid control (slice_index_or groups.now.groups i d) }
{
    let group = groups.at(i)?;
    match group.kind {
        GroupKind::Monitor { parent } if parent == control => Some(group.gid),
        _ => None,
    }
}
