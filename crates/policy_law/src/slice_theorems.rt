//! The laws, each proved with an empty body.

ghost use Rattle.private_lru.specs.SliceLaws.{SliceIsolation};
ghost use Rattle.policy_law.specs.PrivateCaches.{PrivateIsLru};
ghost use Rattle.policy_law.specs.SliceIsolation.{SlicesIsolate};
ghost use Rattle.policy_law.specs.SliceSets.{SetsAreLru};

/// From a flush or a lock on each set of a slice is a set under the policy that replaces the line used longest ago: each access hits
/// just where its line is in that set.
pub fn sets_are_lru()
    ensures { SetsAreLru }
{}

/// So the law of policies speaks of slices: a group that has its ways for itself hits just where it does in its private set.
pub fn slices_isolate()
    ensures { SlicesIsolate }
{}

/// The private cache of the law of one slice is a set under that policy too, on any mask with as many ways.
pub fn private_caches_are_lru()
    ensures { PrivateIsLru }
{}

/// So the law of one slice follows, in all its windows: its proof here is by the two laws above, and so by the law of policies.
pub fn slice_law_follows()
    ensures { SliceIsolation }
{}
