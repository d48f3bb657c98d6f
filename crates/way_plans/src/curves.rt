//! The curves of groups.
ghost use Rattle.std.specs.Prelude.{◌≡◌, ◌≤◌, ◌++◌, OnOk};
ghost use Rattle.std.specs.List.{flat_map, range_with_len};
ghost use Rattle.way_curve.specs.CurveTexts.{ways_line};
ghost use Rattle.path_names.specs.PathTexts.{path_text};
ghost use Rattle.way_plans.specs.PlanTexts.{asked_curve, curve_text, curve_texts, group_heading, row_line};
ghost use Rattle.tree_core.specs.Named.{AreNamed, IsNamed};

use crate::MOST_WAYS;
use crate::asked_domain::AskedDomain;
use crate::writes::dir_of;
use group_tree::Group;
use num_text::GrowingText;
use path_names::{Names, PathRef, push_path};
use rc_base::NoMemory;
use script_ops::Script;

// Adds the line of one number of ways.
#[tactic(auto, unfolding(way_curve::specs::CurveTexts::ways_line))]
fn push_counts(text: &mut GrowingText, ways: u8, uses: u64, hits: u64) -> Result<(), NoMemory>
    requires { hits ≤ uses }
    ensures { OnOk result (text.new ≡ text.old ++ ways_line ways uses hits) }
{
    text.push(b"ways ")?;
    text.push_decimal(u64::from(ways))?;
    text.push(b": accesses ")?;
    text.push_decimal(uses)?;
    text.push(b" hits ")?;
    text.push_decimal(hits)?;
    text.push(b" misses ")?;
    text.push_decimal(uses - hits)?;
    text.push(b"\n")
}

// Adds the same by the misses with each number of ways.
fn push_row_line(
    text: &mut GrowingText,
    row: &[u64; MOST_WAYS + 1],
    ways: u8,
) -> Result<(), NoMemory>
    requires { ways ≤ 32 }
    ensures { OnOk result (text.new ≡ text.old ++ row_line row.now ways) }
{
    let uses = row[0];
    let hits = uses.saturating_sub(row[ways as usize]);
    push_counts(text, ways, uses, hits)
}

// Adds the lines of each number of ways from 1 on, up to this one.
fn push_row(text: &mut GrowingText, row: &[u64; MOST_WAYS + 1], ways: u8) -> Result<(), NoMemory>
    requires { ways ≤ 32 }
    ensures { OnOk result (text.new ≡ text.old ++ flat_map (row_line row.now) (range_with_len 1 ways)) }
{
    for fewer in 0..ways {
        push_row_line(text, row, fewer + 1)?;
    }
    Ok(())
}

// Adds the line that names a domain and a group.
fn push_heading(
    text: &mut GrowingText,
    names: &Names,
    domain: u8,
    group: &Group,
) -> Result<(), NoMemory>
    requires { IsNamed names.now group.now }
    ensures { OnOk result (text.new ≡ text.old ++ group_heading names.now domain group.now) }
{
    let path = PathRef::Dir(dir_of(group));
    text.push(b"domain ")?;
    text.push_decimal(u64::from(domain))?;
    text.push(b" group ")?;
    text.push_decimal(u64::from(group.gid.0))?;
    text.push(b" ")?;
    push_path(text, names, path)?;
    text.push(b":\n")
}

// Adds the curve of a group in a domain.
fn push_curve(
    text: &mut GrowingText,
    script: &Script,
    domain: u8,
    group: &Group,
    row: &[u64; MOST_WAYS + 1],
) -> Result<(), NoMemory>
    requires { IsNamed script.now.names group.now }
    ensures { OnOk result (text.new ≡ text.old ++ curve_text script.now.names script.now.machine.ways domain group.now row.now) }
{
    push_heading(text, script.names(), domain, group)?;
    push_row(text, row, script.machine().ways)
}

// Adds the curve of a group in a domain, where it is asked for.
fn push_asked(
    text: &mut GrowingText,
    asked: &AskedDomain<'_>,
    group: &Group,
    row: &[u64; MOST_WAYS + 1],
) -> Result<(), NoMemory>
    requires { IsNamed asked.now.script.now.names group.now }
    ensures { OnOk result (text.new ≡ text.old ++ asked_curve asked.now.only_used asked.now.script.now.names asked.now.script.now.machine.ways asked.now.domain group.now row.now) }
{
    if asked.only_used && row[0] == 0 {
        return Ok(());
    }
    push_curve(text, asked.script, asked.domain, group, row)
}

/// Adds the curve of each group in a domain, or where `only_used` of it is set of each group that has uses there.
pub(crate) fn push_curves(
    text: &mut GrowingText,
    asked: &AskedDomain<'_>,
    groups: &[Group],
    rows: &[[u64; MOST_WAYS + 1]],
) -> Result<(), NoMemory>
    requires { AreNamed asked.now.script.now.names groups.now }
    ensures { OnOk result (text.new ≡ text.old ++ curve_texts asked.now.only_used asked.now.script.now.names asked.now.script.now.machine.ways asked.now.domain groups.now rows.now) }
{
    let [group, later @ ..] = groups else {
        return Ok(());
    };
    let [row, later_rows @ ..] = rows else {
        return Ok(());
    };
    push_asked(text, asked, group, row)?;
    push_curves(text, asked, later, later_rows)
}
