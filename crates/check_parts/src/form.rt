//! What the words after the program's name ask for.

/// How a script is played for the journals that are exported. (This project's profile.)
#[derive(Clone, Copy, Debug, PartialEq, Eq)]
pub enum Play {
    /// `step`: one step at a time, by the script's `order` lines.
    Step,
    /// `run`: with a worker for each thread of a phase. The `order` lines say nothing then.
    Run,
}

/// What the words after the program's name ask for. (This project's profile.)
#[derive(Clone, Copy, Debug, PartialEq, Eq)]
pub enum Form {
    /// `export step` or `export run`: the script that the source holds, and after it the journals of its play.
    Export(Play),
    /// `check`: whether the journals that the source holds after a script are a run of it.
    Check,
}
