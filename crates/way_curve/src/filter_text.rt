//! Uses as the text of a trace.
ghost use Rattle.std.specs.Prelude.{◌≡◌, ◌+◌, ◌≤◌, ◌<◌, ◌++◌, Bool, codes, length, if◌then◌else◌};
ghost use Rattle.way_curve.specs.FilterTexts.{use_text};

use lackey_text::LineUse;
use num_text::push_hex;
use rc_base::TextBuf;

// How a line begins that is of code, or of data.
fn kind_text(code: bool) -> &'static [u8]
    ensures text { result.now ≡ (if code then codes "I  " else codes " L ") }
    ensures short { length result.now ≡ 3 }
{
    if code {
        b"I  ".as_slice()
    } else {
        b" L ".as_slice()
    }
}

/// Adds a use as a line of a trace.
#[tactic(auto, unfolding(crate::specs::FilterTexts::use_text))]
pub(crate) fn push_use(used: LineUse, out: &mut TextBuf)
    requires line { used.line < 4398046511104 }
    requires room { 23 ≤ out.old.spare }
    ensures bytes { out.new.bytes ≡ out.old.bytes ++ use_text used }
    ensures room { length out.new.bytes + out.new.spare ≡ length out.old.bytes + out.old.spare }
    ensures spare { out.old.spare ≤ out.new.spare + 23 }
{
    out.push_all(kind_text(used.code));
    push_hex(64 * used.line, 0, out);
    out.push_all(b",64\n".as_slice());
}
