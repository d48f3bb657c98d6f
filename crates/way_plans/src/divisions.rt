//! The lines of divisions.
ghost use Rattle.std.specs.Prelude.{◌≡◌, ◌*◌, ◌≤◌, ◌^◌, ◌++◌, All, OnOk, codes, decimal, get_or, length};
ghost use Rattle.way_plans.specs.PlanTexts.{division_line, division_told, order_line};
ghost use Rattle.way_plans.specs.Values.{IsSmall, part_of};
ghost use Rattle.way_plans.specs.Divisions.{misses_of};
ghost use Rattle.way_plans.specs.declared.order.Order.TheVariants.{Creation};

use crate::{DomainPlan, MOST_WAYS, Order, Span};
use num_text::GrowingText;
use rc_base::NoMemory;

// The misses with a number of ways.
fn misses_with(row: &[u64; MOST_WAYS + 1], ways: u8) -> u64
    requires { All (λ n. n ≤ 2 ^ 48) row.now }
    ensures misses { result ≡ get_or row.now ways 0 }
    ensures few { result ≤ 2 ^ 48 }
{
    match row.get(ways as usize) {
        Some(misses) => *misses,
        None => 0,
    }
}

/// The misses of a division together.
pub(crate) fn misses_of(rows: &[[u64; MOST_WAYS + 1]], spans: &[Span]) -> u64
    requires groups { length rows.now ≤ 64 }
    requires misses { All (All (λ n. n ≤ 2 ^ 48)) rows.now }
    ensures misses { result ≡ misses_of rows.now spans.now }
    ensures few { result ≤ length rows.now * 2 ^ 48 }
{
    match (rows, spans) {
        ([row, rows @ ..], [span, spans @ ..]) => {
            misses_with(row, span.count) + misses_of(rows, spans)
        }
        _ => 0,
    }
}

/// Adds what stands at the end of a line of misses.
pub(crate) fn push_misses(text: &mut GrowingText, misses: u64) -> Result<(), NoMemory>
    ensures { OnOk result (text.new ≡ text.old ++ (codes ": misses " ++ decimal misses ++ codes "\n")) }
{
    text.push(b": misses ")?;
    text.push_decimal(misses)?;
    text.push(b"\n")
}

// Adds how many misses the groups have together, or that there is no division.
fn push_told(text: &mut GrowingText, plan: &DomainPlan) -> Result<(), NoMemory>
    requires { IsSmall plan.now }
    ensures { OnOk result (text.new ≡ text.old ++ division_told (part_of plan.now).misses (part_of plan.now).spans) }
{
    match &plan.spans {
        Some(spans) => push_misses(text, misses_of(plan.misses.as_slice(), spans)),
        None => text.push(b": no division\n"),
    }
}

// Adds what is told of a domain behind its number.
fn push_told_of(text: &mut GrowingText, domain: u8, told: &[u8]) -> Result<(), NoMemory>
    ensures { OnOk result (text.new ≡ text.old ++ (codes "domain " ++ decimal domain ++ told.now)) }
{
    text.push(b"domain ")?;
    text.push_decimal(u64::from(domain))?;
    text.push(told)
}

// Adds the line that the groups were tried in order of creation only.
fn push_creation(text: &mut GrowingText, domain: u8) -> Result<(), NoMemory>
    ensures { OnOk result (text.new ≡ text.old ++ order_line domain Creation) }
{
    push_told_of(
        text,
        domain,
        b": the groups were tried in order of creation only\n",
    )
}

// The same, where that is so.
fn push_order(text: &mut GrowingText, domain: u8, order: Order) -> Result<(), NoMemory>
    ensures { OnOk result (text.new ≡ text.old ++ order_line domain order) }
{
    match order {
        Order::Any => Ok(()),
        Order::Creation => push_creation(text, domain),
    }
}

/// Adds the line of a domain's division: its misses, or that there is none; and where not all orders of the groups were tried, a line
/// that says so.
pub(crate) fn push_division(
    text: &mut GrowingText,
    domain: u8,
    plan: &DomainPlan,
) -> Result<(), NoMemory>
    requires { IsSmall plan.now }
    ensures { OnOk result (text.new ≡ text.old ++ division_line domain (part_of plan.now)) }
{
    text.push(b"domain ")?;
    text.push_decimal(u64::from(domain))?;
    push_told(text, plan)?;
    push_order(text, domain, plan.order)
}
