//! flush: emptying caches.
ghost use Rattle.std.specs.Prelude.{◌≡◌, []};
ghost use Rattle.tree_law.specs.commands.Flush as flush;

use super::Tree;
use crate::follow::{After, Follow, flush_all, push_only};

impl Tree {
    /// Lists what follows a flush of a domain, or of every domain.
    #[tactic(auto, unfolding(tree_law::specs::commands::Flush::after))]
    pub(crate) fn flush(&self, domain: Option<u8>, follows: &mut After)
        requires nothing { follows.old.items ≡ [] }
        ensures after { follows.new.items ≡ flush.after self.now.machine domain }
    {
        match domain {
            Some(domain) => push_only(follows, Follow::Flush { domain }),
            None => flush_all(follows, self.machine.domains),
        }
    }
}
