//! Laws about the grammar of scripts.
ghost use Rattle.script_text.specs.Table.{FaultsInOrder};

/// The fault of a line is the first that it has, in the order in which the faults are tried.
#[tactic(auto, using(crate::proofs::FaultOrder::faults_in_order))]
pub fn faults_in_order()
    ensures { FaultsInOrder }
{}
