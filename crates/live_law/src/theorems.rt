//! The law of running threads. What the locks and the passes keep holds at the start, each step keeps it, and at the end it makes the
//! journals a run. No thread, lock or cache is spoken of: only the lists that each has seen.
ghost use Rattle.live_law.specs.CellLaws.{FollowMayStand, LookMayStand, SliceAddsEntry, SliceFloorIsPast, SliceSeesMore, TouchMayStand, TreeAddsCommand, TreeSeesMore};
ghost use Rattle.live_law.specs.Ends.{EachEndIsARun};
ghost use Rattle.live_law.specs.PassesLaws.{EndsAreKept, OpBegins, OpEnds, PassesOpen, PassesSeeMore, ThreadEnds};
ghost use Rattle.live_law.specs.RoomLaws.{AccessHasRoom, CommandHasRoom, CommandsAreCounted, EntriesAreFew, JobHasRoom, JobsAreFew, JobsHaveRoom, OpHasRoom};
ghost use Rattle.live_law.specs.StepLaws.{AfterDecide, AfterFollow, AfterLettingGo, AfterLook, AfterTag, AfterTake, AfterTouch, TagStays};

/// What a slice's lock keeps is kept when its cell sees more of the tree's history, and with each entry that may stand there. Such
/// entries are the looks and follow-ups of the command that holds the tree, and each access with its tag, after all that stands there.
pub fn slices_are_kept()
    ensures sees_more { SliceSeesMore }
    ensures adds_entry { SliceAddsEntry }
    ensures floor { SliceFloorIsPast }

    // What may come next in the list.
    ensures look { LookMayStand }
    ensures follow { FollowMayStand }
    ensures touch { TouchMayStand }
{}

/// What the tree's lock keeps is kept when its cell sees more of the slices, and with each command that has made all that it owes.
pub fn tree_is_kept()
    ensures sees_more { TreeSeesMore }
    ensures adds_command { TreeAddsCommand }
{}

/// What a thread's passes keep is kept when they see more, and from op to op. After its last op the thread has ended, and for whoever
/// sees what it has seen it has ended too.
pub fn passes_are_kept()
    ensures opening { PassesOpen }
    ensures see_more { PassesSeeMore }
    ensures thread_ends { ThreadEnds }
    ensures ends_are_kept { EndsAreKept }
    ensures op_begins { OpBegins }
    ensures op_ends { OpEnds }
{}

/// A command that takes the tree may look; it looks, is decided, makes what follows, and is done when it lets the tree go.
pub fn commands_are_kept()
    ensures take { AfterTake }
    ensures look { AfterLook }
    ensures decide { AfterDecide }
    ensures follow { AfterFollow }
    ensures letting_go { AfterLettingGo }
{}

/// An access takes a tag, which stays one whatever its thread comes to see, and is done when it has touched with it.
pub fn accesses_are_kept()
    ensures tag { AfterTag }
    ensures tag_stays { TagStays }
    ensures touch { AfterTouch }
{}

/// A thread has no more entries of its own than its ops may make. So the quotas of its passes have room for each entry that it is
/// still to make: before an op for all of that op, and inside a command for all that is left of it.
pub fn passes_have_room()
    ensures jobs_are_few { JobsAreFew }
    ensures entries_are_few { EntriesAreFew }
    ensures commands_are_counted { CommandsAreCounted }

    // Before an op.
    ensures op { OpHasRoom }
    ensures access { AccessHasRoom }

    // Inside a command.
    ensures jobs { JobsHaveRoom }
    ensures job { JobHasRoom }
    ensures command { CommandHasRoom }
{}

/// When all threads are at their ends, what the cells and the passes keep makes the journals a run.
pub fn each_end_is_a_run()
    ensures { EachEndIsARun }
{}
