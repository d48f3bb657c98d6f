//! What follows a command in the slices.

use rc_base::Tag;

/// What an accepted command does next in each slice of a domain, or in the slice that has one line there.
#[derive(Clone, Copy, Debug, PartialEq, Eq)]
pub enum Follow {
    /// Tags that are older become stale.
    Raise {
        domain: u8,
    },
    /// Every way is emptied.
    Flush {
        domain: u8,
    },
    /// Every way is emptied, and the ways of a mask are filled with the lines of a region.
    Lock {
        domain: u8,
        mask: u32,
        first_line: u64,
    },
    /// One access to a line of a region.
    Touch {
        tag: Tag,
        line: u64,
    },
    /// One line is flushed.
    Drop {
        domain: u8,
        line: u64,
    },
}

/// The follow-up that stands in a free place of a list.
impl Default for Follow {
    ghost use Rattle.std.specs.Prelude.{◌≡◌};
    ghost use Rattle.tree_law.specs.declared.follow.Follow.TheVariants.{Raise};

    ghost is_default = { λ f. f ≡ Raise 0 };

    fn default() -> Self {
        Follow::Raise { domain: 0 }
    }
}
