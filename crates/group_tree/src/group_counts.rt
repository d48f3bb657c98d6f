//! For each domain, mode and way, how many groups in that mode have it.
ghost use Rattle.group_tree.specs.declared.mode_counts.ModeCounts.{ModeCounts};
ghost use Rattle.std.specs.Prelude.{◌≡◌, ◌<◌, ℕ, length, get_or};
ghost use Rattle.std.specs.Option.{option_copied};
ghost use Rattle.group_tree.specs.Counts.{no_counts, with_group, without_group, without_some};

use crate::group::Group;
use crate::mode_counts::ModeCounts;

// How many domains a machine has at most.
const DOMAINS: u8 = 8;

/// How many control groups have each way, for each domain and for each mode in which a group has ways.
#[derive(Clone, Copy, Debug)]
pub(crate) struct GroupCounts {
    /// The counts of domain d at place d.
    pub(crate) domains: [ModeCounts; 8],
}

impl GroupCounts {
    /// The counts of this group alone.
    pub(crate) fn of_one(g: &Group) -> Self
        ensures size { length result.domains ≡ 8 }
        ensures each { (domain : ℕ) (d : ModeCounts) → domain < 8 → get_or result.domains domain d ≡ with_group g.now domain no_counts }
    {
        let mut counts = GroupCounts {
            domains: [ModeCounts::new(); 8],
        };
        counts.add(g);
        counts
    }

    /// Counts a group more.
    pub(crate) fn add(&mut self, g: &Group)
        ensures size { length self.new.domains ≡ 8 }
        ensures each { (domain : ℕ) (d : ModeCounts) → domain < 8 → get_or self.new.domains domain d ≡ with_group g.now domain (get_or self.old.domains domain d) }
    {
        for domain in 0..DOMAINS {
            self.domains[domain as usize].add(g, domain);
        }
    }

    /// Counts a group fewer.
    pub(crate) fn remove(&mut self, g: &Group)
        ensures size { length self.new.domains ≡ 8 }
        ensures each { (domain : ℕ) (d : ModeCounts) → domain < 8 → get_or self.new.domains domain d ≡ without_group g.now domain (get_or self.old.domains domain d) }
    {
        for domain in 0..DOMAINS {
            self.domains[domain as usize].remove(g, domain);
        }
    }

    /// The counts of a domain without this group, where there is one.
    pub(crate) fn without(&self, g: Option<&Group>, domain: u8) -> ModeCounts
        requires { domain < 8 }
        ensures { (d : ModeCounts) → result ≡ without_some (option_copied g.entry) domain (get_or self.now.domains domain d) }
    {
        self.domains[domain as usize].without(g, domain)
    }
}
