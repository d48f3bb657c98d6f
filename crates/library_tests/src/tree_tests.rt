//! Masks, ids, tables and slices at edges that no script plays, one file for each subject.

mod bindings;
mod initial_masks;
mod letters;
mod line_counts;
mod machines;
mod masks;
mod numbered_ids;
mod overlaps;
mod region_lines;
mod sets;
mod setup;
mod slices;

use mode_rules::DomainUse;

/// The ways of a domain that other hardware, shareable groups, exclusive groups and a region use.
pub(crate) fn used(hardware: u32, shared: u32, exclusive: u32, region: u32) -> DomainUse {
    DomainUse {
        hardware,
        shared,
        exclusive,
        region,
    }
}
