//! Lists that differ in one element.
ghost use Rattle.std.specs.Prelude.{◌≡◌, IfOk, OnOk};
ghost use Rattle.std.specs.List.{insert, remove, slice_set};

use rc_base::NoMemory;
use std::alloc::Global;

/// Puts an element in place of the one there. Past the end nothing changes.
pub(crate) fn put<T: Copy>(list: &mut Vec<T>, at: usize, element: T)
    ensures { list.new.items ≡ slice_set list.old.items at element }
{
    if at < list.len() {
        list[at] = element;
    }
}

/// Inserts an element, at the end where the place is past it.
pub(crate) fn insert<T: Copy>(list: &mut Vec<T>, at: usize, element: T) -> Result<(), NoMemory>
    ensures { OnOk result (list.new.items ≡ insert list.old.items at element) }
{
    if at < list.len() {
        list.insert(at, element)?;
    } else {
        list.push(element)?;
    }
    Ok(())
}

/// Removes an element. Past the end nothing changes.
pub(crate) fn remove<T: Copy>(list: &mut Vec<T>, at: usize)
    ensures { list.new.items ≡ remove list.old.items at }
{
    if at < list.len() {
        list.remove(at);
    }
}

/// A list of these elements.
pub(crate) fn copied<T: Copy>(alloc: Global, list: &[T]) -> Result<Vec<T>, NoMemory>
    ensures { IfOk result (λ copy. copy.items ≡ list.now) }
{
    let mut copy: Vec<T> = Vec::new(alloc);
    copy.extend_from_slice(list)?;
    Ok(copy)
}
