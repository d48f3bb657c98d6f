//! Laws about the texts of CPU sets.
ghost use Rattle.cpu_lists.specs.Printed.{ListReadsBack, MaskReadsBack};

/// The mask text of a set of CPUs that exist reads back as the set.
#[tactic(auto, using(crate::proofs::MaskRoundTrips::mask_reads_back))]
pub fn mask_reads_back()
    ensures { MaskReadsBack }
{}

/// The list text of a set of CPUs that exist reads back as the set.
#[tactic(auto, using(crate::proofs::ListRoundTrips::list_reads_back))]
pub fn list_reads_back()
    ensures { ListReadsBack }
{}
