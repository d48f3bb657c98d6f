//! What is wrong with the text of a CPU set.

/// Why a text is no set of CPUs of the machine.
#[derive(Clone, Copy, Debug, PartialEq, Eq)]
pub enum CpuFault {
    /// The text has no reading.
    Bad,
    /// The text has a reading, and this is the least of its numbers that is no CPU. It is
    /// 2^64 - 1 where that number is greater still.
    NotACpu { cpu: u64 },
}
