//! What a flush or a lock leaves in the sets of a slice.
ghost use Rattle.std.specs.Prelude.{◌≡◌, ◌<◌, length, slice_set};

use crate::loading::RegionLoad;
use crate::sets::Sets;

/// What the last emptying of a slice, a flush or a lock, left in its sets.
#[derive(Clone, Copy)]
pub enum Emptied {
    /// A flush left nothing.
    Flushed,
    /// A lock left the lines of a region.
    Locked(RegionLoad),
}

impl Emptied {
    ghost use Rattle.cache_core.specs.Lazy.{left_set};
    ghost use Rattle.cache_core.specs.Places.{set_in};

    /// Leaves the same in one set. A call of its own, so that accesses to sets of this generation stay short.
    #[inline(never)]
    pub fn renew(&self, sets: &mut Sets, set: u32)
        requires { set < length sets.old }
        ensures { sets.new ≡ slice_set sets.old set (left_set self.now set (length (set_in sets.old set))) }
    {
        match self {
            Emptied::Flushed => sets.clear(set),
            Emptied::Locked(region) => region.load(sets, set),
        }
    }
}
