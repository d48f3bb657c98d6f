//! The line that refuses a trace.
ghost use Rattle.std.specs.Prelude.{◌≡◌, ◌≤◌, ◌++◌};
ghost use Rattle.way_curve.specs.CurveTexts.{bad_line_text};
ghost use Rattle.way_curve.specs.declared.report_limits.TheConstants.{MOST_REFUSAL_BYTES};

use crate::BadTrace;
use crate::numbers::push_number;
use rc_base::TextBuf;

/// Adds the line that refuses a trace.
pub fn push_bad_line(bad: BadTrace, out: &mut TextBuf)
    requires { MOST_REFUSAL_BYTES ≤ out.old.spare }
    ensures { out.new.bytes ≡ out.old.bytes ++ bad_line_text bad.line }
{
    push_number(b"line ".as_slice(), bad.line, out);
    out.push_all(b": bad trace line\n".as_slice());
}
