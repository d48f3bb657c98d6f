//! The laws of the windows of a run, each proved with an empty body.

ghost use Rattle.run_windows.specs.WindowLaws.{EpochsAreSound, LockWindowsExist, RegionsHold, WindowsAreIsolated, WindowsAreUnique, WindowsExist, WorldsAgree};

/// The tree of a run is sound at every epoch.
pub fn epochs_are_sound()
    ensures { EpochsAreSound }
{}

/// In every window of every run the covered accesses of the group hit just where they would in a private cache of as many ways.
pub fn windows_are_isolated()
    ensures { WindowsAreIsolated }
{}

/// The covered accesses of two windows, on machines with equal sets and of groups with equally many ways, hit alike where the
/// groups use and lose the same lines: what others did besides makes no difference.
pub fn worlds_agree()
    ensures { WorldsAgree }
{}

/// A flush or a lock begins just one window of each group that is exclusive then.
pub fn windows_are_one()
    ensures exist { WindowsExist }
    ensures unique { WindowsAreUnique }
{}

/// A locked region holds its lines, but for those that are dropped, until its slice is emptied or the region is gone; and each
/// lock begins a window of the region that its domain then has.
pub fn regions_hold()
    ensures hold { RegionsHold }
    ensures exist { LockWindowsExist }
{}
