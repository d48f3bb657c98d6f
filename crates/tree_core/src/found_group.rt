//! The groups that come and go, once they are found.

use crate::control::Control;
use crate::monitor::Monitor;

/// A group that was found by its path, any but the default group.
#[derive(Clone, Copy, Debug)]
pub(crate) enum FoundGroup {
    Control(Control),
    Monitor(Monitor),
}
