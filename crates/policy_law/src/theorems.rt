//! The laws, each proved with an empty body.

ghost use Rattle.policy_law.specs.Counterexamples.{AgesAreHeard, GeneratorsAreHeard, HeardIsNotIsolated, ResetsAreHeard, TreesAreHeard};
ghost use Rattle.policy_law.specs.KnownLaws.{KnownPoliciesKeepMasks, OwnAgesIsolate, OwnGeneratorsIsolate, OwnResetsIsolate, StampsIsolate, SubtreesIsolate};
ghost use Rattle.policy_law.specs.Laws.{OtherVictimsAreHeard, PoliciesIsolate, PrivateWays, VictimsDecide};

/// The states of a policy, as any type.
pub trait States {
    /// When two states agree, as far as a mask is concerned.
    ghost agree: { Self → Self → Type 0 };
}

/// A group is isolated on each mask that the policy respects: it hits as in its private cache, which has the ways of the mask.
pub fn policies_isolate<S: States>()
    ensures isolated { PoliciesIsolate S.agree }
    ensures ways { PrivateWays S }
{}

/// A group is isolated exactly where its victims are those of its private cache, and events in which it is not can be given.
pub fn victims_decide<S>()
    ensures exactly { VictimsDecide S }
    ensures heard { OtherVictimsAreHeard S }
{}

/// The known policies fill within masks, whether they isolate or not.
pub fn known_policies_keep_masks()
    ensures { KnownPoliciesKeepMasks }
{}

/// Policies that isolate.
pub fn known_policies_isolate()
    ensures stamps { StampsIsolate }
    ensures subtrees { SubtreesIsolate }
    ensures resets { OwnResetsIsolate }
    ensures ages { OwnAgesIsolate }
    ensures generators { OwnGeneratorsIsolate }
{}

/// Policies that do not, each by a computed example.
pub fn neighbours_are_heard<S>()
    ensures tree { TreesAreHeard }
    ensures resets { ResetsAreHeard }
    ensures ages { AgesAreHeard }
    ensures generator { GeneratorsAreHeard }

    // Such an example says that the group is not isolated.
    ensures refuted { HeardIsNotIsolated S }
{}
