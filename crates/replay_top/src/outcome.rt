//! What was found for journals.

use journal_check::Clause;
use run_law::Journals;

/// What was found for the journals of an input.
#[derive(Drop)]
pub enum Replayed {
    /// They are a run of the script, and an order of all steps makes just these journals.
    Ordered(Journals),
    /// They are no run of the script: this clause is the first that is false.
    NoRun(Clause),
    /// They are a run of the script, and no order was found.
    NoOrder,
    /// They are a run of the script, and the script with the order that was found is too large for a script.
    TooLong,
    /// They are a run of the script, of which a report was asked for.
    Reported(Journals),
}
