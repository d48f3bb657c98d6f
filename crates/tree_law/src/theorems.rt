//! Laws of the definitions.
ghost use Rattle.tree_law.specs.LawsAccess.{ChangesAreFollowed, CheckedIsValid, TagsAreGood, ValidIsBounded};
ghost use Rattle.tree_law.specs.LawsCounts.{NeedsDiffer, NeedsExist};
ghost use Rattle.tree_law.specs.LawsFollows.{FollowsAreLawful, FollowsExist};
ghost use Rattle.tree_law.specs.LawsRegions.{FirstLinesAreWhole, FirstLinesDiffer, LinesAreBounded, RegionsAgree};
ghost use Rattle.tree_law.specs.LawsStates.{LeftHasTasks, LeftIsSame, NextIsSound, OpeningIsSound, RefusedIsLeft, StatusIsAlone, StatusIsKept, TasksAreKept, ThresholdIsBounded};
ghost use Rattle.tree_law.specs.ScriptRows.{FirstAnswers, FirstLeft, ThirdAnswers, ThirdLeft};
ghost use Rattle.tree_law.specs.RegionScript.{SecondAnswers, SecondLeft};
ghost use Rattle.tree_law.specs.Rows.{LimboRow, LockRow, LockState, RegionRow, SetupRow, SpaceRow, TasksRow};

/// The tree at the start is sound.
pub fn opening_is_sound()
    ensures { OpeningIsSound }
{}

/// A command that fits the machine, given as many counts as it needs, leaves a sound tree sound.
pub fn next_is_sound()
    ensures { NextIsSound }
{}

/// A command keeps the numbers of the tasks.
pub fn tasks_are_kept()
    ensures { TasksAreKept }
{}

/// The threshold of a sound tree is at most one cache.
pub fn threshold_is_bounded()
    ensures { ThresholdIsBounded }
{}

/// A refused command changes the last status at most, and that only for mkdir and write; a write of
/// `tasks` keeps the tasks that it had moved.
pub fn refused_is_left()
    ensures answer { RefusedIsLeft }
    ensures same { LeftIsSame }
    ensures tasks { LeftHasTasks }
    ensures kept { StatusIsKept }
    ensures alone { StatusIsAlone }
{}

/// An access has a class, an RMID and a mask of the machine.
pub fn tags_are_good()
    ensures { TagsAreGood }
{}

/// A command changes the owner, the class or the mask of an access, or the mode of its owner, only where it raises, flushes or
/// locks the domain of the access, or moves its task or its CPU.
pub fn changes_are_followed()
    ensures { ChangesAreFollowed }
{}

/// A valid mask has no way past the machine's last, and the test of masks finds the valid ones.
pub fn valid_is_bounded()
    ensures bounded { ValidIsBounded }
    ensures checked { CheckedIsValid }
{}

/// The counts that a command needs are of the machine, and none is needed twice.
pub fn needs_are_lawful()
    ensures exist { NeedsExist }
    ensures differ { NeedsDiffer }
{}

/// What follows a command that fits in a sound tree is of domains of the machine; a lock has a valid mask and the next
/// first line, and a touch a line of its domain's region.
pub fn follows_are_lawful()
    ensures domains { FollowsExist }
    ensures lawful { FollowsAreLawful }
{}

/// First lines of regions differ and are multiples of the number of sets, and no line number wraps.
pub fn lines_are_lawful()
    ensures differ { FirstLinesDiffer }
    ensures whole { FirstLinesAreWhole }
    ensures bounded { LinesAreBounded }
{}

/// The masks of pseudo-locked groups are those of the regions.
pub fn regions_agree()
    ensures { RegionsAgree }
{}

/// Worked rows are answered as the rules say.
pub fn rows_are_answered()
    ensures limbo { LimboRow }
    ensures tasks { TasksRow }
    ensures setup { SetupRow }
    ensures lock { LockRow }
    ensures state { LockState }
    ensures space { SpaceRow }
    ensures region { RegionRow }
{}

/// Worked scripts are answered as an independent model of the rules answers them.
pub fn scripts_are_answered()
    ensures first { FirstAnswers }
    ensures first_left { FirstLeft }
    ensures second { SecondAnswers }
    ensures second_left { SecondLeft }
    ensures third { ThirdAnswers }
    ensures third_left { ThirdLeft }
{}
