//! The law of schedules.
ghost use Rattle.step_world.specs.Law.{EachEndIsARun, EachMomentHasRoom, EachMomentIsSoFar, EachPlayIsARun, PlaysAreOne};

/// Whatever steps the threads of a script take, and in whatever order: at every moment the journals are those of a run so far,
/// and when the last phase is over they are a run. So are those of the play of a script.
pub fn each_schedule_is_a_run()
    ensures so_far { EachMomentIsSoFar }
    ensures run { EachEndIsARun }
    ensures play { EachPlayIsARun }
{}

/// No slice ever has more entries than the quotas of all ops for it, so that its room can be taken before the first step.
pub fn each_journal_has_room()
    ensures { EachMomentHasRoom }
{}

/// A script has one play: two plays of it have the same journals.
pub fn plays_are_one()
    ensures { PlaysAreOne }
{}
