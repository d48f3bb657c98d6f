//! The lines of control groups.
ghost use Rattle.std.specs.Prelude.{◌≡◌, ◌++◌, OnOk, codes, decimal, length};
ghost use Rattle.path_names.specs.NamesIn.{AreKnown, path_ids};
ghost use Rattle.path_names.specs.PathTexts.{path_text};
ghost use Rattle.report_text.specs.Groups.{group_told};

use crate::counts::push_counts;
use num_text::GrowingText;
use path_names::{Names, PathRef, push_path};
use rc_base::NoMemory;
use run_counts::Counts;

// Adds the beginning of the line of a group.
fn push_gid(report: &mut GrowingText, gid: u32) -> Result<(), NoMemory>
    ensures { OnOk result (report.new ≡ report.old ++ (codes "group " ++ decimal gid ++ codes " ")) }
{
    report.push(b"group ".as_slice())?;
    report.push_decimal(u64::from(gid))?;
    report.push(b" ".as_slice())
}

/// Adds the line of a control group with this gid, this path and these counts.
pub fn push_group(
    report: &mut GrowingText,
    names: &Names,
    gid: u32,
    path: PathRef,
    counts: Counts,
) -> Result<(), NoMemory>
    requires { AreKnown (length names.now) (path_ids path) }
    ensures { OnOk result (report.new ≡ report.old ++ group_told gid (path_text names.now path) counts) }
{
    push_gid(report, gid)?;
    push_path(report, names, path)?;
    report.push(b": ".as_slice())?;
    push_counts(report, counts)?;
    report.push(b"\n".as_slice())
}
