//! What the words after the program's name ask for.

use crate::curve_form::CurveForm;
use crate::divide_form::DivideForm;
use crate::filter_form::FilterForm;
use crate::share_form::ShareForm;

/// What a command line asks for.
#[derive(Drop)]
pub enum Form {
    /// `curve SETS WAYS [--l1 SETSxWAYS] [--l2 SETSxWAYS] [--one-of N [--scaled]] [--first]`: the curves of a trace.
    Curve(CurveForm),
    /// `divide [--compare] [--used]`: the plan of a script; `divide --apply`: the script with its plan.
    Divide(DivideForm),
    /// `filter [--l1 SETSxWAYS] [--l2 SETSxWAYS]`, with one level at least: what these leave of a trace.
    Filter(FilterForm),
    /// `share SETS WAYS [--ratio] WEIGHT:LEAST ..`: what several programs miss if they share a cache, and if its ways are divided.
    Share(ShareForm),
}
