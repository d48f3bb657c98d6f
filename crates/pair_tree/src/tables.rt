//! The groups and the tasks.
ghost use Rattle.std.specs.Prelude.{◌≤◌, vec_capacity};
ghost use Rattle.pair_tree.specs.declared.tables.TheConstants.{MOST_GROUPS};

use pair_text::PairGroup;
use task_binding::Tasks;

/// How many groups there are at most: as many as classes.
pub(crate) const MOST_GROUPS: usize = 64;

/// The groups in order of creation, the default group first; the tasks, each with its group; and the serial number of the next group.
/// There is room for all groups and their names.
#[derive(Drop)]
pub(crate) struct Tables {
    pub(crate) groups: Vec<PairGroup>,
    pub(crate) tasks: Tasks,
    pub(crate) next_gid: u32,
    ghost roomy: { MOST_GROUPS ≤ vec_capacity groups },
}
