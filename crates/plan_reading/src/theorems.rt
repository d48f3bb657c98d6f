//! Laws of the lines of writes.
ghost use Rattle.plan_reading.specs.ReadBack.{PhasesReadBack, WritesReadBack};

/// The canonical line of a write to a file of a known control group is read as that write, and adds no name.
#[tactic(auto, using(crate::proofs::laws::WriteLines::writes_back))]
pub fn writes_read_back()
    ensures { WritesReadBack }
{}

/// A script, and then the text of a phase whose one thread has writes to groups that the script makes, is read as the script with that
/// phase.
#[tactic(auto, using(crate::proofs::Phases::phases_back))]
pub fn phases_read_back()
    ensures { PhasesReadBack }
{}
