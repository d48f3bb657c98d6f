//! What is best for the programs from one on.
ghost use Rattle.std.specs.Prelude.{◌≡◌};
ghost use Rattle.share_plans.specs.Rows.{better};

use crate::score::Score;
use crate::scores::is_less;

/// The best score of some programs in all their divisions of so many ways, and how many the first of them gets then.
#[derive(Clone, Copy, Debug, PartialEq, Eq)]
pub(crate) struct Choice {
    pub(crate) count: u8,
    pub(crate) score: Score,
}

/// The better of two choices: the first where they are as good.
pub(crate) fn better(first: Option<Choice>, second: Option<Choice>) -> Option<Choice>
    ensures { result ≡ better first second }
{
    match (first, second) {
        (Some(a), Some(b)) if is_less(b.score, a.score) => second,
        (Some(_), _) => first,
        (None, _) => second,
    }
}
