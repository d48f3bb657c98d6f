//! What a plan is compared with.

/// How many of the uses of a domain that a plan counts missed or would miss without the plan.
#[derive(Clone, Copy, Debug, PartialEq, Eq)]
pub struct Comparison {
    /// How many missed as the script was played, each with the masks of its moment.
    pub as_it_is: u64,
    /// How many would miss if all groups shared all ways of the machine.
    pub shared: u64,
}
