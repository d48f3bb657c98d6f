//! The texts of files.
ghost use Rattle.std.specs.Prelude.{◌≡◌, ◌+◌, ◌≤◌, ◌^◌, ◌++◌, All, length};
ghost use Rattle.rc_base.specs.declared.text_buf.TheConstants.{TEXT_MAX};
ghost use Rattle.file_view.specs.Texts.{file_text};

use crate::cpus::{push_cpus, push_cpus_list};
use crate::mode::push_mode;
use crate::numbers::{push_flag, push_full, push_mask, push_number};
use crate::occupancy::push_occupancy;
use crate::schemata::push_schemata;
use crate::size::push_size;
use crate::status::push_status;
use crate::tasks::push_tasks;
use crate::usage::push_usage;
use path_names::{DirRef, FileKind};
use rc_base::TextBuf;
use tree_core::Tree;

/// Adds the text of a file in a directory, by the counts that its read was given.
#[tactic(auto, unfolding(crate::specs::Texts::file_text))]
pub(crate) fn push_file(tree: &Tree, dir: DirRef, kind: FileKind, looks: &[u64], out: &mut TextBuf)
    requires few { length looks.now ≤ length tree.now.state.groups + 1 }
    requires counts { All (λ n. n ≤ 2 ^ 32) looks.now }
    requires room { TEXT_MAX ≤ out.old.spare }
    ensures bytes { out.new.bytes ≡ out.old.bytes ++ file_text tree.now.machine tree.now.state dir looks.now kind }
    ensures spare { out.new.spare + length (file_text tree.now.machine tree.now.state dir looks.now kind) ≡ out.old.spare }
{
    match kind {
        FileKind::Tasks => push_tasks(tree, dir, out),
        FileKind::Cpus => push_cpus(tree, dir, out),
        FileKind::CpusList => push_cpus_list(tree, dir, out),
        FileKind::Schemata => push_schemata(tree, dir, out),
        FileKind::Size => push_size(tree, dir, out),
        FileKind::Mode => push_mode(tree, dir, out),
        FileKind::LastStatus => push_status(tree, out),
        FileKind::BitUsage => push_usage(tree, out),
        FileKind::NumClosids => push_number(u64::from(tree.machine().classes), out),
        FileKind::CbmMask => push_full(tree.machine(), out),
        FileKind::MinCbmBits => push_number(u64::from(tree.machine().min), out),
        FileKind::ShareableBits => push_mask(tree.machine().shareable, out),
        FileKind::SparseMasks => push_flag(tree.machine().sparse, out),
        FileKind::NumRmids => push_number(u64::from(tree.machine().rmids), out),
        FileKind::MonFeatures => out.push_all(b"llc_occupancy\n".as_slice()),
        FileKind::Occupancy => push_occupancy(tree.groups(), looks, out),
        FileKind::MaxThreshold => push_number(tree.rmids().threshold(), out),
    }
}
