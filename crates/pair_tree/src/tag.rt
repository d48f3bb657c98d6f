//! What an access knows of the tree.
use rc_base::Gid;

/// What an access knows of the tree of groups: who owns it, and on each side where it may fill. The sides stand in their order: with
/// code and data prioritization data and then code (Intel SDM volume 3), and with two levels the L2 and then the L3.
#[derive(Clone, Copy, Debug, PartialEq, Eq)]
pub struct PairTag {
    /// How many commands the tree had taken when the tag was read.
    pub epoch: u64,
    /// The group of the task.
    pub owner: Gid,
    /// The class of that group.
    pub class: u8,
    /// The group's mask on each side, in the CPU's domain there: bit w governs way w.
    pub masks: [u32; 2],
    /// The domain of the CPU on each side.
    pub domains: [u8; 2],
}
