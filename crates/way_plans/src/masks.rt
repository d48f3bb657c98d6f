//! The masks of a group.
ghost use Rattle.std.specs.Prelude.{◌≡◌, ◌+◌, ◌≤◌, ◌++◌, All, IfSome, OnOk, length};
ghost use Rattle.way_plans.specs.Masks.{mask_of, span_at};
ghost use Rattle.way_plans.specs.PlanTexts.{masks_at};
ghost use Rattle.way_plans.specs.Values.{IsSmall, part_of, parts_of};
ghost use Rattle.way_plans.specs.Divisions.{end};

use crate::{DomainPlan, Span};
use rc_base::NoMemory;
use schemata_text::Assignment;

// No ways.
const NO_WAYS: Span = Span { first: 0, count: 0 };

// The mask that has just the ways of a span.
fn mask_of(span: Span) -> u32
    requires { end span ≤ 32 }
    ensures { result ≡ mask_of span }
{
    let end = span.first + span.count;
    ((1u64 << end) - (1u64 << span.first)) as u32
}

// The span of the group at a place, and no ways where there is none.
fn span_at(plan: &DomainPlan, place: usize) -> Span
    requires { IsSmall plan.now }
    ensures span { result ≡ span_at (part_of plan.now).spans place }
    ensures within { end result ≤ 32 }
{
    let Some(spans) = &plan.spans else {
        return NO_WAYS;
    };
    match spans.get(place) {
        Some(span) => *span,
        None => NO_WAYS,
    }
}

/// Adds the masks of the group at a place in domains, the first of which has this number.
pub(crate) fn push_masks(
    plans: &[DomainPlan],
    place: usize,
    domain: u8,
    masks: &mut Vec<Assignment>,
) -> Result<(), NoMemory>
    requires few { domain + length plans.now ≤ 8 }
    requires small { All IsSmall plans.now }
    ensures masks { OnOk result (masks.new.items ≡ masks.old.items ++ masks_at place domain (parts_of plans.now)) }
    ensures count { OnOk result (length masks.new.items ≡ length masks.old.items + length plans.now) }
{
    let [plan, later @ ..] = plans else {
        return Ok(());
    };
    let mask = mask_of(span_at(plan, place));
    masks.push(Assignment { domain, mask })?;
    push_masks(later, place, domain + 1, masks)
}
