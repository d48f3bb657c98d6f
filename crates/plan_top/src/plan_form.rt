//! What a report of a plan has.

/// What `divide` reports beside the plan of a script.
#[derive(Clone, Copy, Debug, PartialEq, Eq)]
pub struct PlanForm {
    /// Whether each domain's plan is compared with the script as it is and with a cache that all groups share.
    pub compare: bool,

    /// Whether the report leaves out the curves of groups without uses.
    pub only_used: bool,
}
