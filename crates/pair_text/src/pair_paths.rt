//! The paths of a pair script.
ghost use Rattle.std.specs.Prelude.{◌≡◌};
ghost use Rattle.std.specs.Option.{option_and_then};
ghost use Rattle.path_names.specs.Components.{components_of};
ghost use Rattle.pair_text.specs.PairPaths.{FindsFile, FindsGroup, FindsName, SeesFile, file_at, file_kind, group_at, group_name, or_long};

use path_names::{DirRef, FileKind, fixed_entry, is_well_formed, next_component};
use rc_base::is_text;
use script_ops::MOST_PATH_BYTES;

// The name that a group may have: any that is no fixed entry of `/`.
fn group_name(name: &[u8]) -> Option<&[u8]>
    ensures { FindsName result (group_name name.now) }
{
    if fixed_entry(DirRef::Root, name).is_some() {
        None
    } else {
        Some(name)
    }
}

// The file of this name, of those that a group has.
fn file_kind(name: &[u8]) -> Option<FileKind>
    ensures { result ≡ file_kind name.now }
{
    if is_text(name, b"schemata") {
        Some(FileKind::Schemata)
    } else if is_text(name, b"mode") {
        Some(FileKind::Mode)
    } else if is_text(name, b"tasks") {
        Some(FileKind::Tasks)
    } else {
        None
    }
}

// The group that a path names.
#[tactic(auto, unfolding(path_names::specs::Components::components_of))]
fn group_at(word: &[u8]) -> Option<&[u8]>
    ensures { FindsName result (option_and_then group_at (components_of word.now)) }
{
    if is_text(word, b"/") || !is_well_formed(word) {
        return None;
    }
    let Some((name, rest)) = next_component(word) else {
        return None;
    };
    if next_component(rest).is_some() {
        return None;
    }
    group_name(name)
}

// The file that a path names, and its group.
#[tactic(auto, unfolding(path_names::specs::Components::components_of))]
fn file_at(word: &[u8]) -> Option<(Option<&[u8]>, FileKind)>
    ensures { SeesFile result (option_and_then file_at (components_of word.now)) }
{
    if is_text(word, b"/") || !is_well_formed(word) {
        return None;
    }
    let Some((first, rest)) = next_component(word) else {
        return None;
    };
    let Some((second, rest)) = next_component(rest) else {
        return match file_kind(first) {
            Some(kind) => Some((None, kind)),
            None => None,
        };
    };
    if next_component(rest).is_some() {
        return None;
    }
    let Some(group) = group_name(first) else {
        return None;
    };
    match file_kind(second) {
        Some(kind) => Some((Some(group), kind)),
        None => None,
    }
}

/// The name of the group that a word `/NAME` names, and None where it is no such path. A word that is longer than a path may be is
/// `Some(None)` (this project's profile).
pub fn find_group(word: &[u8]) -> Option<Option<&[u8]>>
    ensures { FindsGroup result (or_long group_at word.now) }
{
    if word.len() > MOST_PATH_BYTES {
        return Some(None);
    }
    match group_at(word) {
        Some(name) => Some(Some(name)),
        None => None,
    }
}

/// The file that a word names, with the name of its group, and None where it is no such path. A word that is longer than a path may be
/// is `Some(None)` (this project's profile).
pub fn find_file(word: &[u8]) -> Option<Option<(Option<&[u8]>, FileKind)>>
    ensures { FindsFile result (or_long file_at word.now) }
{
    if word.len() > MOST_PATH_BYTES {
        return Some(None);
    }
    match file_at(word) {
        Some(found) => Some(Some(found)),
        None => None,
    }
}
