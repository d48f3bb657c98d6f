//! What is wrong with a script.
ghost use Rattle.std.specs.Prelude.{◌≡◌};
ghost use Rattle.script_lines.specs.declared.fault.LineError.TheVariants.{NoMemory as OutOfMemory};

use rc_base::NoMemory;
use std::alloc::{AllocError, AllocFailed};

/// What is wrong with a line, in the order in which the faults are tried (this project's profile).
#[derive(Clone, Copy, Debug, PartialEq, Eq)]
pub enum LineFault {
    /// A byte below 0x20 other than the tab, or above 0x7e.
    BadByte,
    /// The first line that is neither blank nor a comment is no machine line, or there is no such line.
    NoMachine,
    /// The first word is not one that begins a line.
    UnknownWord,
    /// The line may not stand here.
    OutOfPlace,
    /// A key that is unknown, was given before, or is out of its range.
    BadMachine,
    /// No word, one that is no id or range of ids from 1 to 2^32 - 1, or an id that was declared before.
    BadTasks,
    /// The words are too few, too many, no numbers, or out of range.
    BadArgument,
    /// A path that is not well formed.
    BadPath,
    /// A task that is not declared.
    UnknownTask,
    /// A backslash before another byte than `n` and the backslash.
    BadEscape,
    /// The line passes a limit of the script.
    TooLarge,
}

/// Why a line was not read.
#[derive(Debug, Drop)]
pub enum LineError {
    Fault(LineFault),
    NoMemory,
}

impl From<AllocError> for LineError {
    ghost from_gives = { λ _ e. e ≡ OutOfMemory };

    fn from(_: AllocError) -> Self {
        LineError::NoMemory
    }
}

impl<T: Drop> From<AllocFailed<T>> for LineError {
    ghost from_gives = { λ _ e. e ≡ OutOfMemory };

    fn from(_: AllocFailed<T>) -> Self {
        LineError::NoMemory
    }
}

impl From<NoMemory> for LineError {
    ghost from_gives = { λ _ e. e ≡ OutOfMemory };

    fn from(_: NoMemory) -> Self {
        LineError::NoMemory
    }
}

/// The first bad line of a text, counted from 1, and its first fault.
#[derive(Clone, Copy, Debug, PartialEq, Eq)]
pub struct ScriptFault {
    /// The number of the line; where all lines are blank or comments, the number of lines plus one.
    pub line: u32,
    /// Its first fault.
    pub what: LineFault,
}

/// Why a script was not read.
#[derive(Clone, Copy, Debug, PartialEq, Eq)]
pub enum ScriptError {
    /// The text is no script.
    Bad(ScriptFault),
    /// Out of memory.
    NoMemory,
}
