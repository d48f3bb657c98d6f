//! What follows a command in the slices.
ghost use Rattle.std.specs.Prelude.{◌≡◌, ◌≤◌, [], ◌∷◌, filter, map};
ghost use Rattle.std.specs.List.{list_any, range_with_len};
ghost use Rattle.schemata_text.specs.Reading.{is_of};
ghost use Rattle.tree_law.specs.commands.Schemata.{names_domain};
ghost use Rattle.tree_law.specs.declared.follow.Follow.TheVariants.{Drop, Flush, Raise};

use arrayvec::ArrayVec;
use schemata_text::Assignment;
pub use tree_law::Follow;

/// What follows one command, in order: at most one in each domain.
pub type After = ArrayVec<Follow, 8>;

// Whether some assignment is of this domain.
fn is_named(domain: u8, all: &[Assignment]) -> bool
    ensures { result ≡ list_any (is_of domain) all.now }
{
    all.iter().any(|a| domain == a.domain)
}

/// Adds a raise for each domain that is named, rising.
pub(crate) fn raise_named(follows: &mut After, domains: u8, all: &[Assignment])
    requires few { domains ≤ 8 }
    requires nothing { follows.old.items ≡ [] }
    ensures raises { follows.new.items
        ≡ map (λ d. Raise d) (filter (names_domain all.now) (range_with_len 0 domains)) }
{
    for domain in 0..domains {
        if is_named(domain, all) {
            follows.push(Follow::Raise { domain });
        }
    }
}

/// Adds a raise of every domain, rising.
pub(crate) fn raise_all(follows: &mut After, domains: u8)
    requires few { domains ≤ 8 }
    requires nothing { follows.old.items ≡ [] }
    ensures raises { follows.new.items ≡ map (λ d. Raise d) (range_with_len 0 domains) }
{
    for domain in 0..domains {
        follows.push(Follow::Raise { domain });
    }
}

/// Adds a flush of every domain, rising.
pub(crate) fn flush_all(follows: &mut After, domains: u8)
    requires few { domains ≤ 8 }
    requires nothing { follows.old.items ≡ [] }
    ensures flushes { follows.new.items ≡ map (λ d. Flush d) (range_with_len 0 domains) }
{
    for domain in 0..domains {
        follows.push(Follow::Flush { domain });
    }
}

/// Adds a drop of a line in every domain, rising.
pub(crate) fn drop_all(follows: &mut After, domains: u8, line: u64)
    requires few { domains ≤ 8 }
    requires nothing { follows.old.items ≡ [] }
    ensures drops { follows.new.items ≡ map (λ d. Drop d line) (range_with_len 0 domains) }
{
    for domain in 0..domains {
        follows.push(Follow::Drop { domain, line });
    }
}

/// Adds one follow-up.
pub(crate) fn push_only(follows: &mut After, follow: Follow)
    requires nothing { follows.old.items ≡ [] }
    ensures only { follows.new.items ≡ follow ∷ [] }
{
    follows.push(follow);
}
