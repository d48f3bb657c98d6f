//! What a program makes of an input.

/// What a program makes of an input.
#[derive(Drop)]
pub enum Performed<T: Drop> {
    /// The input is refused, and this is the line that says so, with its newline.
    Refused { line: Vec<u8> },
    /// This is the report of the input, and what the program hands back beside it. (A program that answers by yes or no has its
    /// answer in the outcome.)
    Reported { outcome: T, report: Vec<u8> },
    /// Out of memory.
    NoMemory,
}
