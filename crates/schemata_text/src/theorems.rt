//! Laws about schemata texts.
ghost use Rattle.schemata_text.specs.Printed.{ReadsBack};

/// The printed text of valid masks of distinct domains reads back as these masks.
#[tactic(auto, using(crate::proofs::RoundTrips::reads_back))]
pub fn reads_back()
    ensures { ReadsBack }
{}
