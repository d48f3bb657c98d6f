//! Classes that are given back.
ghost use Rattle.tree_core.specs.Given.{IsGiven, MayGive};

use hw_ids::ClassIds;

/// Gives a class back, where there is one.
pub(crate) fn give(classes: &mut ClassIds, class: Option<u8>)
    requires may { MayGive classes.old class }
    ensures { IsGiven classes.old classes.new class }
{
    if let Some(class) = class {
        classes.give(class);
    }
}
