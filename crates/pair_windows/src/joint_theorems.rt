//! Laws of the windows, each proved with an empty body.
ghost use Rattle.pair_windows.specs.AllJointWindows.{JointWindowsAreListed};

/// The windows that `joint_windows` lists are all windows of the run in which the group has a use, each once and in order, each with its
/// counts. In each as many covered uses hit, level by level, as in the private hierarchy.
pub fn joint_windows_are_listed()
    ensures { JointWindowsAreListed }
{}
