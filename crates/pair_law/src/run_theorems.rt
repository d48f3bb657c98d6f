//! Laws of the runs, each proved with an empty body.
ghost use Rattle.pair_law.specs.RunLaws.{CdpWindowsAreIsolated, LevelWindowsAreIsolated};
ghost use Rattle.pair_law.specs.WindowLaws.{CdpWindowsAreUnique, CdpWindowsExist, EntriesStay, JointCountsAgree, JointWindowsAreUnique, JointWindowsExist, RepliesGrow, StatesFollow};

/// In every window of a run with code and data prioritization, the covered accesses of a group's side hit just where they would in
/// a private cache of as many ways.
pub fn cdp_windows_are_isolated()
    ensures { CdpWindowsAreIsolated }
{}

/// In every joint window of a run with two levels, the covered uses of a group do at each level what they would do alone.
pub fn level_windows_are_isolated()
    ensures { LevelWindowsAreIsolated }
{}

/// A flush begins just one window of each side of a group that is alone then.
pub fn cdp_windows_are_one()
    ensures exist { CdpWindowsExist }
    ensures unique { CdpWindowsAreUnique }
{}

/// A flush begins just one joint window of each group that is exclusive after it.
pub fn joint_windows_are_one()
    ensures exist { JointWindowsExist }
    ensures unique { JointWindowsAreUnique }
{}

/// The covered uses of a joint window hit at each level as often as they would alone.
pub fn joint_counts_agree()
    ensures { JointCountsAgree }
{}

/// What a player of a script keeps from one op to the next.
pub fn plays_go_on()
    ensures replies { RepliesGrow }
    ensures states { StatesFollow }
    ensures entries { EntriesStay }
{}
