//! The phases, on the parts that the threads and who starts them have.
ghost use Rattle.std.specs.Prelude.{◌≡◌, ◌<◌};
ghost use Rattle.schedule_law.specs.LiveParts.{after};
ghost use Rattle.schedule_law.specs.LivePhases.{MayBegin, MayEnd, MayPass};
ghost use Rattle.schedule_law.specs.declared.part.Happening.TheVariants.{Begin, End, Pass};
ghost use Rattle.shared_parts.specs.Parts.{parts_after};
ghost use Rattle.shared_parts.specs.Words.{word_of};

use crate::machine_of::NamedScript;
use crate::part::Happening;
use crate::sharing::Parts;

/// The phase of a thread has begun, so it may take steps without the phase's part.
pub fn begin<N: NamedScript>(phase: &mut Parts<N>, worker: &mut Parts<N>, lock: usize)
    requires table { phase.old.table ≡ worker.old.table }
    requires lock { word_of lock < worker.old.table.words }
    requires may { MayBegin N.script phase.old.parts worker.old.parts }
    ensures table { (phase.new.table ≡ phase.old.table) × (worker.new.table ≡ worker.old.table) }
    ensures phase { phase.new.parts ≡ phase.old.parts }
    ensures worker { worker.new.parts ≡ parts_after after Begin worker.old.parts }
{
    worker.step_with(lock, phase, &Happening::Begin);
}

/// A thread is at its end, after all threads before it.
pub fn end<N: NamedScript>(phase: &mut Parts<N>, worker: &mut Parts<N>, lock: usize)
    requires table { phase.old.table ≡ worker.old.table }
    requires lock { word_of lock < worker.old.table.words }
    requires may { MayEnd N.script phase.old.parts worker.old.parts }
    ensures table { (phase.new.table ≡ phase.old.table) × (worker.new.table ≡ worker.old.table) }
    ensures phase { phase.new.parts ≡ parts_after after End phase.old.parts }
    ensures worker { worker.new.parts ≡ worker.old.parts }
{
    worker.step_with(lock, phase, &Happening::End);
}

/// All threads of the present phase are at their ends, and the next phase begins.
pub fn pass<N: NamedScript>(phase: &mut Parts<N>, lock: usize)
    requires lock { word_of lock < phase.old.table.words }
    requires may { MayPass N.script phase.old.parts }
    ensures table { phase.new.table ≡ phase.old.table }
    ensures phase { phase.new.parts ≡ parts_after after Pass phase.old.parts }
{
    phase.step(lock, &Happening::Pass);
}
