//! The text that a command gives.
ghost use Rattle.std.specs.Prelude.{◌≡◌, ◌+◌, ◌≤◌, ◌^◌, ◌++◌, All, IsTrue, None, length};
ghost use Rattle.file_view.specs.Texts.{is_reading, listed_text, read_text, text_of};
ghost use Rattle.tree_core.specs.Named.{AreNamed};
ghost use Rattle.tree_law.specs.Existing.{is_directory, is_file};
ghost use Rattle.tree_law.specs.Steps.{needs, refusal};

use crate::files::push_file;
use crate::listing::push_list;
use path_names::{Names, PathRef};
use rc_base::{TEXT_MAX, TextBuf};
use script_ops::Op;
use tree_core::Tree;

/// Whether an op gives a text, where it is accepted: a read and a list do.
pub fn is_reading(op: &Op) -> bool
    ensures { result ≡ is_reading op.now }
{
    matches!(op, Op::Read { .. } | Op::List { .. })
}

// Adds the text of the file at a path.
fn push_read(tree: &Tree, path: PathRef, looks: &[u64], out: &mut TextBuf)
    requires there { IsTrue (is_file tree.now.state path) }
    requires few { length looks.now ≤ length tree.now.state.groups + 1 }
    requires counts { All (λ n. n ≤ 2 ^ 32) looks.now }
    requires room { TEXT_MAX ≤ out.old.spare }
    ensures bytes { out.new.bytes ≡ out.old.bytes ++ read_text tree.now.machine tree.now.state looks.now path }
    ensures spare { out.new.spare + length (read_text tree.now.machine tree.now.state looks.now path) ≡ out.old.spare }
{
    match path {
        PathRef::File(dir, kind) => push_file(tree, dir, kind, looks, out),
        _ => unreachable!(),
    }
}

// Adds the listing of the directory at a path.
fn push_listed(tree: &Tree, names: &Names, path: PathRef, out: &mut TextBuf)
    requires there { IsTrue (is_directory tree.now.state path) }
    requires named { AreNamed names.now tree.now.state.groups }
    requires room { TEXT_MAX ≤ out.old.spare }
    ensures bytes { out.new.bytes ≡ out.old.bytes ++ listed_text tree.now.machine tree.now.state names.now path }
    ensures spare { out.new.spare + length (listed_text tree.now.machine tree.now.state names.now path) ≡ out.old.spare }
{
    match path {
        PathRef::Dir(dir) => push_list(tree, names, dir, out),
        _ => unreachable!(),
    }
}

/// Adds the text that an accepted read or list gives, from the counts of lines that it needs (kernel documentation, "Info
/// directory", "Resource alloc and monitor groups" and "Schemata files - general concepts"): that of a file, or the names in a
/// directory, each on its line, the fixed entries first and then the groups in order of creation. `TEXT_MAX` bytes are room
/// for each.
#[tactic(auto, unfolding(crate::specs::Texts::text_of))]
pub fn text(tree: &Tree, names: &Names, op: &Op, looks: &[u64], out: &mut TextBuf)
    requires reading { IsTrue (is_reading op.now) }
    requires accepted { refusal tree.now.machine tree.now.state op.now ≡ None }
    requires looks { length looks.now ≡ length (needs tree.now.machine tree.now.state op.now) }
    requires counts { All (λ n. n ≤ 2 ^ 32) looks.now }
    requires named { AreNamed names.now tree.now.state.groups }
    requires room { TEXT_MAX ≤ out.old.spare }
    ensures bytes { out.new.bytes ≡ out.old.bytes ++ text_of tree.now.machine tree.now.state names.now op.now looks.now }
    ensures spare { out.new.spare + length (text_of tree.now.machine tree.now.state names.now op.now looks.now) ≡ out.old.spare }
{
    match op {
        Op::Read { path } => push_read(tree, *path, looks, out),
        Op::List { path } => push_listed(tree, names, *path, out),
        _ => unreachable!(),
    }
}
