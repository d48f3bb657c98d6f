//! What stands in the place of an op.

/// An op in 16 bytes: an access where it stands, or a command by its number. Fields lie in memory in the order in which they
/// stand here.
#[derive(Clone, Copy)]
pub enum Slot {
    Access { cpu: u8, task: u32, addr: u64 },
    Command(usize),
}
