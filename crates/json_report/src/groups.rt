//! The values of control groups.
ghost use Rattle.std.specs.Prelude.{◌≡◌, ◌++◌, ◌∷◌, [], OnOk, codes, length, true};
ghost use Rattle.json_report.specs.GroupValues.{group_of_counts};
ghost use Rattle.json_report.specs.Pieces.{members_told};
ghost use Rattle.path_names.specs.NamesIn.{AreKnown, path_ids};
ghost use Rattle.path_names.specs.PathTexts.{path_text};
ghost use Rattle.serde_json.specs.Data.{string};
ghost use Rattle.serde_json.specs.Written.{compact_text};

use crate::members::{push_number, push_text};
use num_text::GrowingText;
use path_names::{Names, PathRef, push_path};
use rc_base::NoMemory;
use run_counts::Counts;
use std::alloc::Global;

// Adds the member that is a path.
fn push_path_member(
    alloc: Global,
    report: &mut GrowingText,
    names: &Names,
    path: PathRef,
) -> Result<(), NoMemory>
    requires { AreKnown (length names.now) (path_ids path) }
    ensures { OnOk result (report.new ≡ report.old ++ members_told true ((codes "path", string (path_text names.now path)) ∷ [])) }
{
    let mut text = GrowingText::create(alloc)?;
    push_path(&mut text, names, path)?;
    push_text(report, "path", &text.into_bytes())
}

/// Adds the value of a control group with this gid, this path and these counts.
#[tactic(auto, unfolding(crate::specs::GroupValues::group_of_counts))]
pub fn push_group(
    alloc: Global,
    report: &mut GrowingText,
    names: &Names,
    gid: u32,
    path: PathRef,
    counts: Counts,
) -> Result<(), NoMemory>
    requires { AreKnown (length names.now) (path_ids path) }
    ensures { OnOk result (report.new ≡ report.old ++ compact_text (group_of_counts gid (path_text names.now path) counts)) }
{
    report.push(b"{".as_slice())?;
    push_number(report, false, "accesses", counts.accesses)?;
    push_number(report, true, "gid", u64::from(gid))?;
    push_number(report, true, "hits", counts.hits)?;
    push_number(report, true, "misses", counts.misses)?;
    push_path_member(alloc, report, names, path)?;
    report.push(b"}".as_slice())
}
