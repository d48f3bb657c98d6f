//! The registers of data and of code.
ghost use Rattle.std.specs.Prelude.{◌≡◌, ◌*◌, ◌+◌, ◌<◌, ◌^◌, length};
ghost use Rattle.pair_play.specs.SideTags.{tag_on};
ghost use Rattle.pair_law.specs.CdpRuns.{owner_on, side_of};

use pair_play::side_tag;
use pair_text::Side;
use pair_tree::PairTag;
use rc_base::{Gid, Tag};

/// The tag of a use of data or of code: its mask is that of the side's register, and its owner stands for the side of the group, with
/// twice its serial number for data and one more for code (this project's profile).
pub(crate) fn tag_of_use(tag: &PairTag, code: bool) -> Tag
    requires owner { 2 * tag.now.owner.0 + 1 < 2 ^ 32 }
    requires masks { length tag.now.masks ≡ 2 }
    requires domains { length tag.now.domains ≡ 2 }
    ensures { result ≡ tag_on tag.now (side_of code) (owner_on tag.now.owner (side_of code)) }
{
    if code {
        side_tag(tag, Side::Second, Gid(2 * tag.owner.0 + 1))
    } else {
        side_tag(tag, Side::First, Gid(2 * tag.owner.0))
    }
}
