//! What is told of domains.
ghost use Rattle.std.specs.Prelude.{◌≡◌, ◌+◌, ◌≤◌, ◌++◌, All, OnOk, length};
ghost use Rattle.way_plans.specs.PlanTexts.{domain_text, domain_texts, is_whole};
ghost use Rattle.way_plans.specs.Values.{IsSmall, part_of, parts_of};
ghost use Rattle.tree_core.specs.Named.{AreNamed};

use crate::DomainPlan;
use crate::asked_domain::AskedDomain;
use crate::curves::push_curves;
use crate::divisions::push_division;
use group_tree::Group;
use num_text::GrowingText;
use rc_base::NoMemory;

/// Adds what is told of a domain, where `only_used` of it is set without the curves of groups that have no uses there.
pub(crate) fn push_domain(
    text: &mut GrowingText,
    asked: &AskedDomain<'_>,
    groups: &[Group],
    plan: &DomainPlan,
) -> Result<(), NoMemory>
    requires named { AreNamed asked.now.script.now.names groups.now }
    requires small { IsSmall plan.now }
    ensures { OnOk result (text.new ≡ text.old ++ domain_text asked.now.only_used asked.now.script.now.names asked.now.script.now.machine.ways groups.now asked.now.domain (part_of plan.now)) }
{
    push_curves(text, asked, groups, plan.misses.as_slice())?;
    push_division(text, asked.domain, plan)
}

/// Adds what is told of domains, the first of which has this number.
pub(crate) fn push_domains(
    text: &mut GrowingText,
    asked: &AskedDomain<'_>,
    groups: &[Group],
    plans: &[DomainPlan],
) -> Result<(), NoMemory>
    requires named { AreNamed asked.now.script.now.names groups.now }
    requires few { asked.now.domain + length plans.now ≤ 8 }
    requires small { All IsSmall plans.now }
    ensures { OnOk result (text.new ≡ text.old ++ domain_texts asked.now.only_used asked.now.script.now.names asked.now.script.now.machine.ways groups.now asked.now.domain (parts_of plans.now)) }
{
    let [plan, later @ ..] = plans else {
        return Ok(());
    };
    push_domain(text, asked, groups, plan)?;
    push_domains(
        text,
        &AskedDomain {
            domain: asked.domain + 1,
            ..*asked
        },
        groups,
        later,
    )
}

/// Whether each domain has a division.
pub(crate) fn is_whole(plans: &[DomainPlan]) -> bool
    ensures { result ≡ is_whole (parts_of plans.now) }
{
    match plans {
        [] => true,
        [plan, later @ ..] => plan.spans.is_some() && is_whole(later),
    }
}
