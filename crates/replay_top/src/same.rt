//! Whether two journals are the same.
ghost use Rattle.std.specs.Prelude.{◌≡◌, ◌<◌, IsTrue, length, map};
ghost use Rattle.run_law.specs.Entries.{entry_value};

use crate::same_reply::is_same_reply;
use cache_core::SliceEntry;
use run_law::{Journals, TreeEntry};

// Whether two entries of slices are the same.
fn is_same_entry(a: SliceEntry, b: SliceEntry) -> bool
    ensures { IsTrue result → a ≡ b }
{
    a == b
}

// Whether two lists of entries are the same.
fn are_same_entries(a: &[SliceEntry], b: &[SliceEntry]) -> bool
    ensures { IsTrue result → a.now ≡ b.now }
{
    let mut left = a;
    let mut right = b;
    'entries: loop {
        let Some((entry, rest)) = left.split_first() else {
            return right.is_empty();
        };
        let Some((other, behind)) = right.split_first() else {
            return false;
        };
        if !is_same_entry(*entry, *other) {
            return false;
        }
        left = rest;
        right = behind;
    }
}

// Whether two lists of counts are the same.
fn are_same_counts(a: &[u64], b: &[u64]) -> bool
    ensures { IsTrue result → a.now ≡ b.now }
{
    a == b
}

// Whether two commands that the tree took are the same.
fn is_same_command(a: &TreeEntry, b: &TreeEntry) -> bool
    ensures { IsTrue result → entry_value a.now ≡ entry_value b.now }
{
    a.thread == b.thread
        && a.op == b.op
        && is_same_reply(a.reply, b.reply)
        && are_same_counts(a.looks.items(), b.looks.items())
}

// Whether two lists of commands are the same.
fn are_same_commands(a: &[TreeEntry], b: &[TreeEntry]) -> bool
    ensures { IsTrue result → map entry_value a.now ≡ map entry_value b.now }
{
    let mut left = a;
    let mut right = b;
    'entries: loop {
        let Some((entry, rest)) = left.split_first() else {
            return right.is_empty();
        };
        let Some((other, behind)) = right.split_first() else {
            return false;
        };
        if !is_same_command(entry, other) {
            return false;
        }
        left = rest;
        right = behind;
    }
}

/// Whether two journals, each with so many slices, are the same.
pub(crate) fn are_same(a: &Journals, b: &Journals, slices: u8) -> bool
    requires first { length a.now.slices ≡ slices }
    requires second { length b.now.slices ≡ slices }
    ensures { IsTrue result → a.now ≡ b.now }
{
    if !are_same_commands(a.tree(), b.tree()) {
        return false;
    }
    for i in 0..slices {
        if !are_same_entries(a.slice(u32::from(i)), b.slice(u32::from(i))) {
            return false;
        }
    }
    true
}
