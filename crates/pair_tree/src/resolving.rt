//! Whose an access is, and the registers.
ghost use Rattle.std.specs.Prelude.{◌≡◌, ◌<◌, IsSome};
ghost use Rattle.pair_law.specs.Registers.{class_of, mask_of_group, register, side_of_register};
ghost use Rattle.pair_law.specs.State.{owner_of};
ghost use Rattle.pair_tree.specs.Tables.{state_of};
ghost use Rattle.task_binding.specs.Bindings.{binding_of};

use crate::lookup::{find_class, find_gid};
use crate::masks::mask_in;
use crate::tables::Tables;
use pair_text::Side;
use rc_base::Gid;

impl Tables {
    /// The group of a declared task.
    pub(crate) fn owner_of(&self, task: u32) -> Gid
        requires { IsSome (binding_of task self.now.tasks) }
        ensures { result ≡ owner_of (state_of self.now) task }
    {
        self.tasks.groups_of(task).0
    }

    /// The class of a group, and 0 where there is no such group.
    pub(crate) fn class_of(&self, gid: Gid) -> u8
        ensures { result ≡ class_of (state_of self.now) gid }
    {
        match find_gid(&self.groups, gid) {
            Some(g) => g.class,
            None => 0,
        }
    }

    /// The mask of a group on a side in a domain, and 0 where there is no such group.
    pub(crate) fn mask_of(&self, gid: Gid, side: Side, domain: u8) -> u32
        requires { domain < 8 }
        ensures { result ≡ mask_of_group (state_of self.now) side domain gid }
    {
        match find_gid(&self.groups, gid) {
            Some(g) => mask_in(g, side, domain),
            None => 0,
        }
    }

    /// What a register of a domain holds.
    #[tactic(auto, unfolding(pair_law::specs::Registers::register))]
    pub(crate) fn register(&self, domain: u8, index: u8) -> Option<u32>
        requires { domain < 8 }
        ensures { result ≡ register (state_of self.now) domain index }
    {
        let side = side_of_register(index);
        match find_class(&self.groups, index / 2) {
            Some(g) => Some(mask_in(g, side, domain)),
            None => None,
        }
    }
}

// The side of a register.
fn side_of_register(index: u8) -> Side
    ensures { result ≡ side_of_register index }
{
    if index % 2 == 0 {
        Side::First
    } else {
        Side::Second
    }
}
