//! The names of the fixed entries of directories.
ghost use Rattle.std.specs.Prelude.{◌≡◌, ◌+◌, ◌≤◌, ◌++◌, length, map};
ghost use Rattle.std.specs.List.{range_with_len};
ghost use Rattle.machine.specs.Maps.{parameters_of};
ghost use Rattle.path_names.specs.PathTable.{domain_name, fixed_name};
ghost use Rattle.file_view.specs.Lines.{on_lines};
ghost use Rattle.file_view.specs.Listings.{fixed_names};

use crate::lines::push_name;
use machine::Machine;
use path_names::{DirRef, FixedEntry, domain_name, fixed_in};
use rc_base::TextBuf;

/// How many bytes the names of the fixed entries of a directory have at most, each on its line.
pub(crate) const FIXED_MAX: usize = 256;

// How many fixed entries a directory has at most, but for the domains of `mon_data`.
const MOST_ENTRIES: usize = 9;

// Adds the names of the directories of so many domains.
fn push_domains(domains: u8, out: &mut TextBuf)
    requires few { domains ≤ 8 }
    requires room { FIXED_MAX ≤ out.old.spare }
    ensures bytes { out.new.bytes ≡ out.old.bytes ++ on_lines (map domain_name (range_with_len 0 domains)) }
    ensures spare { out.new.spare + length (on_lines (map domain_name (range_with_len 0 domains))) ≡ out.old.spare }
    ensures short { length (on_lines (map domain_name (range_with_len 0 domains))) ≤ FIXED_MAX }
{
    for domain in 0..domains {
        push_name(out, domain_name(domain).as_slice());
    }
}

// Adds the names of these entries.
fn push_entries(entries: &[FixedEntry], out: &mut TextBuf)
    requires few { length entries.now ≤ MOST_ENTRIES }
    requires room { FIXED_MAX ≤ out.old.spare }
    ensures bytes { out.new.bytes ≡ out.old.bytes ++ on_lines (map fixed_name entries.now) }
    ensures spare { out.new.spare + length (on_lines (map fixed_name entries.now)) ≡ out.old.spare }
    ensures short { length (on_lines (map fixed_name entries.now)) ≤ FIXED_MAX }
{
    for entry in entries {
        push_name(out, entry.name());
    }
}

/// Adds the names of the fixed entries of a directory, each on its line.
pub(crate) fn push_fixed(m: &Machine, dir: DirRef, out: &mut TextBuf)
    requires room { FIXED_MAX ≤ out.old.spare }
    ensures bytes { out.new.bytes ≡ out.old.bytes ++ on_lines (fixed_names (parameters_of m.now) dir) }
    ensures spare { out.new.spare + length (on_lines (fixed_names (parameters_of m.now) dir)) ≡ out.old.spare }
    ensures short { length (on_lines (fixed_names (parameters_of m.now) dir)) ≤ FIXED_MAX }
{
    match dir {
        DirRef::MonData(_) => push_domains(m.domains, out),
        _ => push_entries(fixed_in(dir), out),
    }
}
