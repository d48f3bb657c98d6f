//! write: by the file.
ghost use Rattle.std.specs.Prelude.{◌≡◌, ◌<◌, ◌≤◌, [], None, Some, find, length};
ghost use Rattle.group_tree.specs.Records.{has_gid};
ghost use Rattle.path_names.specs.declared.path_ref.PathRef.TheVariants.{File};
ghost use Rattle.script_ops.specs.declared.limits.TheConstants.{MOST_WEIGHT};
ghost use Rattle.script_ops.specs.declared.op.Op.TheVariants.{Write};
ghost use Rattle.tree_core.specs.Changes.{Takes};
ghost use Rattle.tree_core.specs.FoundFiles.{FindsFile};
ghost use Rattle.tree_law.specs.Existing.{directory_gid};
ghost use Rattle.tree_law.specs.Places.{with_record};
ghost use Rattle.tree_law.specs.Sound.{IsSound};
ghost use Rattle.tree_law.specs.Steps.{needs};
ghost use Rattle.tree_law.specs.commands.Write.{against, reasons};

use super::Tree;
use crate::follow::After;
use crate::found_dir::FoundDir;
use crate::places::{file_at, is_written};
use group_tree::Group;
use path_names::{DirRef, FileKind, PathRef};
use rc_base::{Mode, Reply, Why};

impl Tree {
    /// Writes a text to a file, with the counts that it needs, and sets the last status.
    pub(crate) fn write(
        &mut self,
        path: PathRef,
        text: &[u8],
        looks: &[u64],
        follows: &mut After,
    ) -> Reply
        requires short { length text.now ≤ 4096 }
        requires looks { length looks.now ≡ length (needs self.old.machine self.old.state (Write path text.now)) }
        requires locks { self.old.state.locks < self.old.epoch }
        requires epoch { self.old.epoch ≤ MOST_WEIGHT }
        requires nothing { follows.old.items ≡ [] }
        ensures { Takes self.old (Write path text.now) looks.now self.new result follows.new.items }
    {
        match self.writable_at(path) {
            Ok((at, kind)) => self.write_file(at, kind, text, looks, follows),
            Err(why) => self.answer(Reply::refused(why, 0)),
        }
    }

    // Writes a text to a file that can be written.
    fn write_file(
        &mut self,
        at: FoundDir,
        kind: FileKind,
        text: &[u8],
        looks: &[u64],
        follows: &mut After,
    ) -> Reply
        requires writable { find (against self.old.state (File at.dir kind)) reasons ≡ None }
        requires found { at.gid ≡ directory_gid self.old.state at.dir }
        requires short { length text.now ≤ 4096 }
        requires looks { length looks.now ≡ length (needs self.old.machine self.old.state (Write (File at.dir kind) text.now)) }
        requires locks { self.old.state.locks < self.old.epoch }
        requires epoch { self.old.epoch ≤ MOST_WEIGHT }
        requires nothing { follows.old.items ≡ [] }
        ensures { Takes self.old (Write (File at.dir kind) text.now) looks.now self.new result follows.new.items }
    {
        match kind {
            FileKind::Schemata => self.write_schemata(at, text, follows),
            FileKind::Mode => self.write_mode(at, text, looks, follows),
            FileKind::Tasks => self.write_tasks(at, text),
            FileKind::Cpus | FileKind::CpusList => self.write_cpus(at, kind, text),
            FileKind::MaxThreshold => self.write_threshold(at.dir, text),
            _ => unreachable!(),
        }
    }

    /// The file that can be written at this path, with the directory that holds it; where there is none, the reason against
    /// writing to the path, whatever the text.
    pub(crate) fn writable_at(&self, path: PathRef) -> Result<(FoundDir, FileKind), Why>
        ensures { FindsFile self.now.state path result }
    {
        match file_at(path) {
            Some((dir, kind)) => self.writable_in(dir, kind),
            None => Err(Why::NoSuchPath),
        }
    }

    // The same for a file of a directory.
    fn writable_in(&self, dir: DirRef, kind: FileKind) -> Result<(FoundDir, FileKind), Why>
        ensures { FindsFile self.now.state (File dir kind) result }
    {
        let Some(at) = self.found_dir(dir) else {
            return Err(Why::NoSuchPath);
        };
        if is_written(kind) {
            Ok((at, kind))
        } else {
            Err(Why::OnlyRead)
        }
    }

    /// Gives a group this mode and these masks, which leave a sound tree.
    pub(crate) fn put(&mut self, group: Group, mode: Mode, masks: [u32; 8])
        requires there { find (has_gid group.gid) self.old.state.groups ≡ Some group }
        requires sound { IsSound self.old.machine
            (with_record self.old.state (record group { mode = mode; masks = masks })) }
        ensures tree { self.new
            ≡ record self.old { state = with_record self.old.state (record group { mode = mode; masks = masks }) } }
    {
        let mut new = group;
        new.mode = mode;
        new.masks = masks;
        self.groups.replace(new);
    }

    /// Sets the last status.
    pub(crate) fn answer(&mut self, reply: Reply) -> Reply
        ensures reply { result ≡ reply }
        ensures tree { self.new ≡ record self.old { state = record self.old.state { status = reply } } }
    {
        self.status = reply;
        reply
    }
}
