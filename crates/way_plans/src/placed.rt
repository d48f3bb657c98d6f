//! What is best for the groups from one on, in a state.
ghost use Rattle.std.specs.Prelude.{◌≡◌};
ghost use Rattle.way_plans.specs.Placings.{fewer};

use crate::span::Span;

/// The fewest misses of some groups in a state, and what the first of them gets then.
#[derive(Clone, Copy, Debug, PartialEq, Eq)]
pub(crate) struct Placed {
    pub(crate) span: Span,
    pub(crate) misses: u64,
    /// The state that this leaves to the groups after it.
    pub(crate) rest: usize,
}

/// The one of two that has fewer misses: the first where they have as many.
pub(crate) fn fewer(first: Option<Placed>, second: Option<Placed>) -> Option<Placed>
    ensures { result ≡ fewer first second }
{
    match (first, second) {
        (Some(a), Some(b)) if b.misses < a.misses => second,
        (Some(_), _) => first,
        (None, _) => second,
    }
}
