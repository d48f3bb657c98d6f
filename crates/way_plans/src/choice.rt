//! What is best for the groups from one on.
ghost use Rattle.std.specs.Prelude.{◌≡◌};
ghost use Rattle.way_plans.specs.Rows.{better};

use crate::span::Span;

/// The fewest misses of some groups in all their divisions of the ways from one on, and what the first of them gets then.
#[derive(Clone, Copy, Debug, PartialEq, Eq)]
pub(crate) struct Choice {
    pub(crate) span: Span,
    pub(crate) misses: u64,
}

/// The one of two choices that has fewer misses: the first where they have as many.
pub(crate) fn better(first: Option<Choice>, second: Option<Choice>) -> Option<Choice>
    ensures { result ≡ better first second }
{
    match (first, second) {
        (Some(a), Some(b)) if b.misses < a.misses => second,
        (Some(_), _) => first,
        (None, _) => second,
    }
}
