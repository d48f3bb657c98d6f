//! What the program is to do.

/// What the first word after the program's name asks for. (This project's profile.)
#[derive(Clone, Copy, Debug, PartialEq, Eq)]
pub enum Command {
    /// `step`: plays the script that the source holds, one step at a time.
    Step,
    /// `run`: plays the script that the source holds, with a worker for each thread of a phase. Its `order` lines say nothing then.
    Run,
    /// `gen N`: plays the script that the generator makes of the number, 1 to `MOST_THREAD_ACCESSES`. The source is not called.
    Gen(u32),
}
