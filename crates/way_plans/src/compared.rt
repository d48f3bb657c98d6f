//! What is told of domains whose plans are compared.
ghost use Rattle.std.specs.Prelude.{◌≡◌, ◌+◌, ◌≤◌, ◌++◌, All, OnOk, length};
ghost use Rattle.way_plans.specs.ComparedTexts.{compared_domains, compared_line, comparison_text};
ghost use Rattle.way_plans.specs.Values.{IsSmall, parts_of};
ghost use Rattle.tree_core.specs.Named.{AreNamed};

use crate::asked_domain::AskedDomain;
use crate::divisions::push_misses;
use crate::domains::push_domain;
use crate::{Comparison, DomainPlan};
use group_tree::Group;
use num_text::GrowingText;
use rc_base::NoMemory;

// Adds the line of one thing that a domain's plan is compared with.
fn push_line(text: &mut GrowingText, domain: u8, what: &[u8], misses: u64) -> Result<(), NoMemory>
    ensures { OnOk result (text.new ≡ text.old ++ compared_line domain what.now misses) }
{
    text.push(b"domain ")?;
    text.push_decimal(u64::from(domain))?;
    text.push(what)?;
    push_misses(text, misses)
}

// Adds the lines of what a domain's plan is compared with.
fn push_comparison(
    text: &mut GrowingText,
    domain: u8,
    comparison: Comparison,
) -> Result<(), NoMemory>
    ensures { OnOk result (text.new ≡ text.old ++ comparison_text domain comparison) }
{
    push_line(text, domain, b" as it is", comparison.as_it_is)?;
    push_line(text, domain, b" shared", comparison.shared)
}

/// Adds what is told of domains, the first of which has this number, and after the plan of each what it is compared with.
pub(crate) fn push_compared(
    text: &mut GrowingText,
    asked: &AskedDomain<'_>,
    groups: &[Group],
    plans: &[DomainPlan],
    comparisons: &[Comparison],
) -> Result<(), NoMemory>
    requires named { AreNamed asked.now.script.now.names groups.now }
    requires few { asked.now.domain + length plans.now ≤ 8 }
    requires small { All IsSmall plans.now }
    ensures { OnOk result (text.new ≡ text.old ++ compared_domains asked.now.only_used asked.now.script.now.names asked.now.script.now.machine.ways groups.now asked.now.domain (parts_of plans.now) comparisons.now) }
{
    let [plan, later @ ..] = plans else {
        return Ok(());
    };
    let [comparison, others @ ..] = comparisons else {
        return Ok(());
    };
    push_domain(text, asked, groups, plan)?;
    push_comparison(text, asked.domain, *comparison)?;
    push_compared(
        text,
        &AskedDomain {
            domain: asked.domain + 1,
            ..*asked
        },
        groups,
        later,
        others,
    )
}
