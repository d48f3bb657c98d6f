//! Laws of the definitions.
ghost use Rattle.schedule_law.specs.Law.{SlicesHaveRoom, StatesClose, StatesOpen, StepsMayHappen};
ghost use Rattle.schedule_law.specs.Schedules.{EachPlayIsScheduled, EachScheduleIsAPlay, EachScheduleIsARun};

/// A play by order lists is scheduled. What is scheduled is a run, and it can be played again by order lists.
pub fn schedules_are_plays()
    ensures play { EachPlayIsScheduled }
    ensures run { EachScheduleIsARun }
    ensures again { EachScheduleIsAPlay }
{}

/// Each step that a live thread takes may happen to the parts that it has, whatever the others are. So may the beginning of a phase.
pub fn steps_may_happen()
    ensures { StepsMayHappen }
{}

/// The parts before the first step are those of a state that is reached. No list is longer than its room. When the last phase is
/// over, the journals are scheduled.
pub fn states_are_reached()
    ensures open { StatesOpen }
    ensures room { SlicesHaveRoom }
    ensures close { StatesClose }
{}
