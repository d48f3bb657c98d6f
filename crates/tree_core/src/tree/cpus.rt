//! A write of `cpus` or `cpus_list`: the CPUs of a group.
ghost use Rattle.std.specs.Prelude.{◌≡◌, [], ◌≤◌, ℕ, List, None, find, length, true};
ghost use Rattle.path_names.specs.declared.path_ref.PathRef.TheVariants.{File};
ghost use Rattle.script_ops.specs.declared.op.Op.TheVariants.{Write};
ghost use Rattle.tree_core.specs.Changes.{MakesUnless, Takes};
ghost use Rattle.tree_core.specs.CpuFiles.{StaysSound, is_cpus, named_by, unless};
ghost use Rattle.tree_law.specs.Existing.{directory_gid};
ghost use Rattle.tree_law.specs.Refusals.{reply_of};
ghost use Rattle.tree_law.specs.Sound.{IsSound};
ghost use Rattle.tree_law.specs.commands.Cpus.{accepted, against_set, cpus_after, refusal};
ghost use Rattle.tree_law.specs.commands.Write.{against, reasons};

use super::Tree;
use crate::cpu_sets::{give, read_cpus, refusal};
use crate::found_dir::FoundDir;
use group_tree::Group;
use path_names::FileKind;
use rc_base::{Reply, Why};

impl Tree {
    /// Writes the `cpus` or the `cpus_list` of a directory.
    pub(crate) fn write_cpus(&mut self, at: FoundDir, kind: FileKind, text: &[u8]) -> Reply
        requires kind { is_cpus kind ≡ true }
        requires writable { find (against self.old.state (File at.dir kind)) reasons ≡ None }
        requires found { at.gid ≡ directory_gid self.old.state at.dir }
        requires short { length text.now ≤ 4096 }
        ensures { (looks : List ℕ) → Takes self.old (Write (File at.dir kind) text.now) looks self.new result [] }
    {
        // What the type keeps makes the next state a sound one.
        let _ = &self.machine;
        let Some(group) = self.group_in(at) else {
            return self.answer(Reply::Ok);
        };
        let reply = self.join_cpus(&group, kind, text);
        self.answer(reply)
    }

    // Gives a group the CPUs that a text names, where nothing is against it.
    fn join_cpus(&mut self, group: &Group, kind: FileKind, text: &[u8]) -> Reply
        requires sound { StaysSound self.old.machine self.old.state group.now (named_by self.old.machine kind text.now) }
        ensures { MakesUnless self.old (refusal self.old.state group.now (named_by self.old.machine kind text.now))
            (accepted self.old.state group.now (named_by self.old.machine kind text.now)) [] self.new result [] }
    {
        if self.is_closed(group) {
            return Reply::refused(Why::Locking, 0);
        }
        match read_cpus(&self.machine, kind, text) {
            Ok(set) => self.take_cpus(group, set),
            Err(fault) => refusal(fault, group.gid, group.kind, &self.cpus),
        }
    }

    // Gives a group a set of CPUs, where nothing is against it.
    fn take_cpus(&mut self, group: &Group, set: u64) -> Reply
        requires sound { against_set group.now.gid group.now.kind self.old.state.cpus set ≡ None → IsSound self.old.machine
            (record self.old.state { cpus = cpus_after group.now.gid group.now.kind set self.old.state.cpus }) }
        ensures reply { result ≡ reply_of (against_set group.now.gid group.now.kind self.old.state.cpus set) }
        ensures tree { self.new ≡ record self.old {
          state
              = record self.old.state {
                cpus
                    = unless (against_set group.now.gid group.now.kind self.old.state.cpus set) self.old.state.cpus
                    (cpus_after group.now.gid group.now.kind set self.old.state.cpus);
              };
        } }
    {
        give(&mut self.cpus, group.gid, group.kind, set)
    }
}
