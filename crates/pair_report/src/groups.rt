//! The lines of the groups that ever were.
ghost use Rattle.std.specs.Prelude.{◌≡◌, ◌++◌, OnOk, Some, codes, decimal};
ghost use Rattle.pair_text.specs.Values.{op_at};
ghost use Rattle.pair_report.specs.LinesBefore.{path_made};

use num_text::GrowingText;
use pair_text::{PairOp, PairScript};
use rc_base::NoMemory;

/// Adds the beginning of the line of a group.
pub(crate) fn push_gid(report: &mut GrowingText, gid: u32) -> Result<(), NoMemory>
    ensures { OnOk result (report.new ≡ report.old ++ (codes "group " ++ decimal gid ++ codes " ")) }
{
    report.push_number(b"group ".as_slice(), u64::from(gid))?;
    report.push(b" ".as_slice())
}

// Adds the path that an op makes, where it is a mkdir.
fn push_path_of(report: &mut GrowingText, op: &PairOp) -> Result<(), NoMemory>
    ensures { OnOk result (report.new ≡ report.old ++ path_made (Some op.now)) }
{
    match op {
        PairOp::Mkdir { name } => {
            report.push(b"/".as_slice())?;
            report.push(name.as_slice())
        }
        _ => Ok(()),
    }
}

/// Adds the path that the op at a place makes.
pub(crate) fn push_path(
    report: &mut GrowingText,
    script: &PairScript,
    place: usize,
) -> Result<(), NoMemory>
    ensures { OnOk result (report.new ≡ report.old ++ path_made (op_at script.now place)) }
{
    match script.ops().get(place) {
        Some(op) => push_path_of(report, op),
        None => Ok(()),
    }
}
