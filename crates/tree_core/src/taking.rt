//! The ids of a new group.
ghost use Rattle.std.specs.Prelude.{IsTrue};
ghost use Rattle.hw_ids.specs.Ids.{contains};
ghost use Rattle.tree_core.specs.Taking.{ClassesStay, HasClass, TakesIds, TakesRmid};

use hw_ids::{ClassIds, NoRmid, Rmids};
use rc_base::{Reply, Why};

/// The class and the RMID of a new control group.
#[derive(Clone, Copy, Debug)]
pub(crate) struct NewIds {
    pub(crate) class: u8,
    pub(crate) rmid: u16,
}

/// Whether a class is free. The lowest is taken and given back, which leaves the classes as they were.
pub(crate) fn has_class(classes: &mut ClassIds) -> bool
    requires default_class { IsTrue (contains 0 classes.old.taken) }
    ensures stay { ClassesStay classes.old classes.new }
    ensures free { HasClass classes.old result }
{
    match classes.take() {
        Some(class) => {
            classes.give(class);
            true
        }
        None => false,
    }
}

/// Takes the lowest free class and RMID, or says which is lacking, and then takes neither.
pub(crate) fn take_ids(classes: &mut ClassIds, rmids: &mut Rmids) -> Result<NewIds, Reply>
    requires default_class { IsTrue (contains 0 classes.old.taken) }
    ensures { TakesIds classes.old classes.new rmids.old rmids.new result }
{
    let Some(class) = classes.take() else {
        return Err(Reply::refused(Why::OutOfClosids, 0));
    };
    match take_rmid(rmids) {
        Ok(rmid) => Ok(NewIds { class, rmid }),
        Err(reply) => {
            classes.give(class);
            Err(reply)
        }
    }
}

/// Takes the lowest free RMID, or says why there is none.
pub(crate) fn take_rmid(rmids: &mut Rmids) -> Result<u16, Reply>
    ensures { TakesRmid rmids.old rmids.new result }
{
    match rmids.take() {
        Ok(rmid) => Ok(rmid),
        Err(NoRmid::Spent) => Err(Reply::refused(Why::OutOfRmids, 0)),
        Err(NoRmid::Limbo) => Err(Reply::refused(Why::RmidsBusy, 0)),
    }
}
