//! The flags of a command line.

/// What a report holds besides the lines of groups, of domains and of the total. (This project's profile.)
#[derive(Clone, Copy, Debug, PartialEq, Eq)]
pub struct Flags {
    /// The entries of each slice.
    pub journal: bool,
    /// One JSON object in the place of lines.
    pub json: bool,
    /// The windows in which a group was isolated.
    pub windows: bool,
    /// No lines of commands.
    pub quiet: bool,
}

impl Flags {
    /// No flag.
    pub const NONE: Flags = Flags {
        journal: false,
        json: false,
        windows: false,
        quiet: false,
    };
}
