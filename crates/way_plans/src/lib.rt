//! How the ways of each domain are best divided among the groups that a script leaves, by what each would have missed with each
//! number of ways, and the text of such a plan. A call that runs out of memory answers NoMemory.
//!
//! The curve of a group counts its accesses that the journals have since the last flush or lock of each slice, from where its
//! windows begin too. A line that `clflush` drops in between is gone from the private caches of every curve, whoever dropped it.
//!
//! Where the free ways are in one run, the order of the groups does not matter: they get their ways in order, from way 0 up. For the
//! groups from one on and the ways from one on, the fewest misses of all their divisions are known once they are known for the groups
//! after it: the first of the groups gets some ways side by side, and the others what lies behind. So a table of as many rows as there
//! are groups has the answer, in as many steps as there are groups, first ways and numbers of ways.
//!
//! Where hardware or regions split the free ways into several runs, any group may lie in any run. Then a table has a row for each group
//! and in it a place for each state: how many ways are left of each run. What is best for the groups from one on in a state follows
//! from the next row, as above, for each run that the group may get its ways of.
#![tactic(auto)]

mod any_order;
mod applied;
mod asked_domain;
mod best;
mod choice;
pub mod command_theorems;
mod compared;
pub mod comparison;
mod comparisons;
mod curves;
mod division;
pub mod division_limits;
pub mod division_theorems;
mod divisions;
mod domain_plan;
mod domain_uses;
mod domains;
mod final_tree;
mod free;
mod groups;
mod items;
pub mod limits;
mod masks;
mod order;
mod placed;
mod placing;
pub mod plan;
mod played;
mod report;
pub mod report_theorems;
mod row;
mod rows;
mod runs;
mod schemata;
mod shared_lines;
mod shared_uses;
mod slice_lines;
mod span;
mod state_row;
mod state_rows;
mod table;
pub mod theorems;
mod writes;

pub use any_order::{divide_in_any_order, has_few_states};
pub use applied::applied_plan;
pub use best::{Division, best_division};
pub use comparison::Comparison;
pub use comparisons::comparisons_of;
pub use division::divide;
pub use division_limits::{MOST_GROUPS, MOST_MISSES, MOST_STATES, MOST_WAYS};
pub use domain_plan::{DomainPlan, PlannedTree, plan_domain};
pub use domain_uses::group_curve;
pub use final_tree::replay_all;
pub use groups::planned_groups;
pub use limits::MOST_USES;
pub use order::Order;
pub use plan::{Plan, plan_of};
pub use report::{compared_report, plan_report};
pub use span::Span;
