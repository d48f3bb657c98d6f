//! Values, and the members of objects.
ghost use Rattle.std.specs.Prelude.{◌≡◌, ◌++◌, ◌∷◌, [], OnOk, false, true};
ghost use Rattle.json_report.specs.Pieces.{key_told, members_told};
ghost use Rattle.json_report.specs.Values.{whole};
ghost use Rattle.serde_json.specs.Data.{string};
ghost use Rattle.serde_json.specs.View.{view};
ghost use Rattle.serde_json.specs.Written.{comma_if, compact_text, has_float};

use crate::strings::push_string;
use num_text::GrowingText;
use rc_base::NoMemory;
use serde_json::Value;
use std::alloc::Global;

/// Adds a comma, where something stands before.
pub fn push_comma(report: &mut GrowingText, later: bool) -> Result<(), NoMemory>
    ensures { OnOk result (report.new ≡ report.old ++ comma_if later) }
{
    if later {
        report.push(b",".as_slice())
    } else {
        Ok(())
    }
}

/// Adds a key with its colon, after a comma where something stands before.
pub fn push_key(report: &mut GrowingText, later: bool, key: &str) -> Result<(), NoMemory>
    ensures { OnOk result (report.new ≡ report.old ++ key_told later key.now) }
{
    push_comma(report, later)?;
    push_string(report, key.as_bytes())?;
    report.push(b":".as_slice())
}

/// Adds a member that is a number, after a comma where something stands before.
pub fn push_number(report: &mut GrowingText, later: bool, key: &str, n: u64) -> Result<(), NoMemory>
    ensures { OnOk result (report.new ≡ report.old ++ members_told later ((key.now, whole n) ∷ [])) }
{
    push_key(report, later, key)?;
    report.push_decimal(n)
}

/// Adds a member that is a string, after others.
pub(crate) fn push_text(report: &mut GrowingText, key: &str, text: &[u8]) -> Result<(), NoMemory>
    ensures { OnOk result (report.new ≡ report.old ++ members_told true ((key.now, string text.now) ∷ [])) }
{
    push_key(report, true, key)?;
    push_string(report, text)
}

/// Adds a value that has no float.
pub(crate) fn push_value(
    alloc: Global,
    report: &mut GrowingText,
    value: &Value,
) -> Result<(), NoMemory>
    requires { has_float (view value.now) ≡ false }
    ensures { OnOk result (report.new ≡ report.old ++ compact_text (view value.now)) }
{
    let text = value.to_vec(alloc)?;
    report.push(&text)
}
