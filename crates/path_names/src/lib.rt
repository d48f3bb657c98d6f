//! Paths of the resctrl file tree: which directory or file each names, and the interned names of groups.
#![tactic(auto)]

pub mod components;
pub mod dirs;
pub mod entries;
pub mod files;
pub mod fixed;
mod last_path;
mod name_index;
mod name_key;
mod name_list;
pub mod names;
pub mod path_ref;
pub mod path_text;
pub mod paths;
pub mod theorems;

pub use components::{MOST_NAME_BYTES, is_well_formed, next_component};
pub use dirs::{DirRef, Holder, Owner};
pub use entries::fixed_entry;
pub use files::FileKind;
pub use fixed::{FixedEntry, domain_name, fixed_in};
pub use names::{NameId, Names};
pub use path_ref::PathRef;
pub use path_text::push_path;
pub use paths::{MOST_PATH_NAMES, PathFault, read_path};
