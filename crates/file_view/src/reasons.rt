//! The texts of reasons.
ghost use Rattle.std.specs.Prelude.{◌≡◌, ◌+◌, ◌<◌, ◌≤◌, ◌++◌, length};
ghost use Rattle.rc_base.specs.Reasons.{argument_text, reason_text};

use num_text::{push_dec, push_hex};
use rc_base::{Argument, TextBuf, Why};

/// Room for the text of a reason, in bytes (this project's profile).
pub const REASON_MAX: usize = 128;

// Adds the argument of a reason.
fn push_argument(argument: Argument, arg: u64, out: &mut TextBuf)
    requires room { 20 ≤ out.old.spare }
    ensures bytes { out.new.bytes ≡ out.old.bytes ++ argument_text argument arg }
    ensures spare { out.new.spare + length (argument_text argument arg) ≡ out.old.spare }
    ensures short { length (argument_text argument arg) ≤ 20 }
{
    match argument {
        Argument::Absent => {}
        Argument::Decimal => push_dec(arg, out),
        Argument::Hexadecimal => push_hex(arg, 0, out),
    }
}

/// Adds the text of a reason with its argument (this project's profile; nothing is said of how a kernel words it).
pub fn reason(why: Why, arg: u64, out: &mut TextBuf)
    requires room { REASON_MAX ≤ out.old.spare }
    ensures bytes { out.new.bytes ≡ out.old.bytes ++ reason_text why arg }
    ensures spare { out.new.spare + length (reason_text why arg) ≡ out.old.spare }
    ensures short { length (reason_text why arg) < REASON_MAX }
{
    let wording = why.wording();
    out.push_all(wording.before.as_bytes());
    push_argument(wording.argument, arg, out);
    out.push_all(wording.after.as_bytes());
}
