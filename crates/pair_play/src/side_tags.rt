//! The tags of accesses on one side.
ghost use Rattle.std.specs.Prelude.{◌≡◌, length};
ghost use Rattle.pair_play.specs.SideTags.{tag_on};

use pair_text::Side;
use pair_tree::PairTag;
use rc_base::{Gid, Tag};

/// The tag of an access on a side, where this owner stands for the group: the side's mask in the domain of the CPU there, and RMID 0.
pub fn side_tag(tag: &PairTag, side: Side, owner: Gid) -> Tag
    requires masks { length tag.now.masks ≡ 2 }
    requires domains { length tag.now.domains ≡ 2 }
    ensures { result ≡ tag_on tag.now side owner }
{
    let place = match side {
        Side::First => 0,
        Side::Second => 1,
    };
    Tag {
        epoch: tag.epoch,
        owner,
        class: tag.class,
        rmid: 0,
        mask: tag.masks[place],
        domain: tag.domains[place],
    }
}
