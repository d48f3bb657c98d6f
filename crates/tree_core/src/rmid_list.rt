//! Lists of RMIDs.
ghost use Rattle.std.specs.Prelude.{◌≡◌, ◌≤◌, ◌<◌, ◌++◌, length, slice_index_or};
ghost use Rattle.std.specs.Option.{option_to_list};
ghost use Rattle.group_tree.specs.declared.group.Group.{Group};
ghost use Rattle.tree_core.specs.RmidLists.{monitor_rmids, rmids_if_monitor};

use arrayvec::ArrayVec;
use group_tree::{GroupKind, Groups};
use rc_base::Gid;

/// Some of a machine's RMIDs, each once.
pub(crate) type RmidList = ArrayVec<u16, 256>;

/// This RMID, where there is one.
pub(crate) fn only(rmid: Option<u16>) -> RmidList
    ensures { result.items ≡ option_to_list rmid }
{
    let mut rmids = RmidList::new();
    push_some(&mut rmids, rmid);
    rmids
}

/// Adds this RMID, where there is one.
pub(crate) fn push_some(rmids: &mut RmidList, rmid: Option<u16>)
    requires room { length (rmids.old.items ++ option_to_list rmid) ≤ 256 }
    ensures { rmids.new.items ≡ rmids.old.items ++ option_to_list rmid }
{
    if let Some(rmid) = rmid {
        rmids.push(rmid);
    }
}

/// Adds the RMIDs of the monitor groups of a control group, in order of creation.
pub(crate) fn push_monitors(rmids: &mut RmidList, groups: &Groups, control: Gid)
    requires room { length (rmids.old.items ++ monitor_rmids control groups.now.groups) ≤ 256 }
    ensures { rmids.new.items ≡ rmids.old.items ++ monitor_rmids control groups.now.groups }
{
    for i in 0..groups.len() {
        push_some(rmids, monitor_rmid(groups, control, i));
    }
}

// The RMID of the i-th group, where that is a monitor group of this control group.
fn monitor_rmid(groups: &Groups, control: Gid, i: u32) -> Option<u16>
    requires within { i < length groups.now.groups }
    ensures { (d : Group) → option_to_list result ≡ rmids_if_monitor control (slice_index_or groups.now.groups i d) }
{
    let group = groups.at(i)?;
    match group.kind {
        GroupKind::Monitor { parent } if parent == control => group.rmid,
        _ => None,
    }
}
