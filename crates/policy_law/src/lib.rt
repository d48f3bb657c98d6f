//! Which replacement policies isolate: a partition by masks under any policy, and the law that a policy which respects a mask
//! isolates who fills there.
//!
//! That a set of a slice, and the private cache of the law of one slice, are sets under the policy of the least recently used line: so
//! that law is an instance of the law of policies.
#![tactic(auto)]

pub mod slice_theorems;
pub mod theorems;
