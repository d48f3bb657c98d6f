//! The top call of `resctrl_plan`: reads a trace or a stream of several programs piece by piece, or a script, and writes the report
//! that the words ask for.
#![tactic(auto)]

mod apply;
pub mod calls;
pub mod curve_form;
mod curve_words;
mod divide;
pub mod divide_form;
mod divide_words;
mod filter;
pub mod filter_form;
mod filter_words;
mod flags;
pub mod form;
pub mod limits;
mod numbers;
pub mod plan_form;
mod program;
mod share;
pub mod share_form;
mod share_words;
pub mod theorems;
mod words;

pub use calls::{run_plan, top_plan};
pub use curve_form::CurveForm;
pub use divide_form::DivideForm;
pub use filter_form::FilterForm;
pub use form::Form;
pub use limits::{MOST_SETS, MOST_WAYS};
pub use plan_form::PlanForm;
pub use share_form::{ShareForm, Wish};
pub use words::{USAGE, form_of};
