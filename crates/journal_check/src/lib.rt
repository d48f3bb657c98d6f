//! Whether journals are a run of a script, and of what is asked of a run the first that is false. It has a replay of its own for the
//! entries of a slice, which may be any, also such as no cache would make (masks past the ways, lines of foreign sets, a region whose
//! lines pass 64 bits), and tables of numbers for the ops of the script: where the tree took each command, when each op began.
//! A call that runs out of memory answers NoMemory.
#![tactic(auto)]

mod added_entry;
mod after_commands;
mod answers;
mod asked_tree;
mod asks;
mod beginnings;
pub mod cached_line;
pub mod command_counts;
mod commands_once;
mod debt;
mod dues;
mod entry_order;
mod first_looks;
mod homes;
mod known_ops;
mod legal_slices;
mod legality;
mod made_once;
mod marks;
mod matched;
pub mod needs;
pub mod op_kinds;
pub mod op_table;
mod other_entries;
mod owed;
mod payments;
mod phases;
mod places;
pub mod region;
pub mod replay;
mod replies;
pub mod rmid_counts;
pub mod slot;
pub mod slots;
mod tags;
pub mod theorems;
pub mod trace;
mod traced_journals;
pub mod verdict;
pub mod victims;

pub use after_commands::are_after_commands;
pub use answers::check;
pub use beginnings::starts_of;
pub use command_counts::CommandCounts;
pub use commands_once::are_taken_once;
pub use entry_order::are_in_order as are_entries_in_order;
pub use homes::are_accesses_once;
pub use known_ops::are_known;
pub use legal_slices::are_slices_legal;
pub use legality::is_legal;
pub use marks::are_in_order as are_marks_in_order;
pub use matched::are_matched;
pub use op_kinds::{is_access_at, is_command};
pub use op_table::OpTable;
pub use other_entries::are_owed;
pub use places::places_of;
pub use tags::are_accesses_true;
pub use trace::Step;
pub use verdict::{Clause, Verdict};
