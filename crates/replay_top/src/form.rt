//! What the words after the program's name ask for.

use report_pieces::Flags;

/// What the words after the program's name ask for. (This project's profile.)
#[derive(Clone, Copy, Debug, PartialEq, Eq)]
pub enum ReplayForm {
    /// `order`: the script with an order of all steps that makes the journals.
    Order,
    /// `report`: the report of the journals, with what these flags ask for.
    Report(Flags),
}
