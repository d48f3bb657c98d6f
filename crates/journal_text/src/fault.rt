//! What is wrong with a journal text.

/// Why a text gives no journals.
#[derive(Clone, Copy, Debug, PartialEq, Eq)]
pub enum ReadError {
    /// The text holds no journals of the script. This is its first line, counted from 1, such that no journal text begins with the
    /// lines up to it; where there is none such, the line that is missing or lacks its newline.
    Bad { line: u32 },
    /// There was no room for the journals.
    NoMemory,
}
