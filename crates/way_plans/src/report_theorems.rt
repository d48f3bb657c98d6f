//! Laws of all plans.
ghost use Rattle.way_plans.specs.Masks.{PlansHaveMasks, PlansInAnyOrderHaveMasks};
ghost use Rattle.way_plans.specs.NoWays.{AllMissWithNoWays};

/// The masks of a plan are valid on its machine, and no two of a domain have a way in common.
pub fn plans_have_masks()
    ensures { PlansHaveMasks }
{}

/// So it is where the groups lie in any order.
pub fn plans_in_any_order_have_masks()
    ensures { PlansInAnyOrderHaveMasks }
{}

/// The accesses that the report tells of a group, its misses with no ways, are all its uses.
pub fn all_miss_with_no_ways()
    ensures { AllMissWithNoWays }
{}
