//! Laws of the windows, each proved with an empty body.
ghost use Rattle.pair_windows.specs.AllCdpWindows.{CdpWindowsAreListed};

/// The windows that `cdp_windows` lists are all windows of the run in which the side has an access, each once and in order, each with
/// its counts. In each as many covered accesses hit as in a private cache.
pub fn cdp_windows_are_listed()
    ensures { CdpWindowsAreListed }
{}
