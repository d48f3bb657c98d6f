//! The pseudo-locked regions of a machine.
ghost use Rattle.pseudo_lock.specs.declared.region.Region.{Region};
ghost use Rattle.std.specs.Prelude.{◌≡◌, ◌<◌, ◌^◌, None, IfSome, map};
ghost use Rattle.pseudo_lock.specs.Regions.{IsLawful, first_line_of, next_region, region_in, unused, with_region, without, without_group};

use crate::region::{Region, without};
use rc_base::Gid;
use std::marker::Model;

/// The greatest number of domains that a machine may have (this project's profile).
pub const DOMAINS: usize = 8;

/// How many regions may be placed in all (this project's profile).
pub const MAX_PLACED: u32 = 4_000_000;

// The first line of region 0. Trace addresses are below 2^48, so no trace meets a region's line.
const FIRST_LINE: u64 = 1 << 52;

// How many lines there are from the first of a region to the first of the next.
const LINES_APART: u64 = 1 << 32;

/// The regions of a machine, at most one in each domain, and how many were placed so far (this project's profile).
#[derive(Debug, Drop)]
pub struct Regions {
    places: [Option<Region>; DOMAINS],
    placed: u32,
}

impl Model for Regions {
    ghost use Rattle.pseudo_lock.specs.Regions.{IsLawful, RegionTable};

    ghost Value = { RegionTable };

    ghost view = { λ r. record { places = r.places; placed = r.placed } };

    ghost invariant = { λ r. IsLawful (record { places = r.places; placed = r.placed }) };
}

impl Regions {
    /// No region, and none placed so far.
    pub fn create() -> Regions
        ensures { result ≡ unused }
    {
        Regions {
            places: [None; DOMAINS],
            placed: 0,
        }
    }

    /// How many regions were placed so far, those that are gone included.
    pub fn placed(&self) -> u32
        ensures number { result ≡ self.now.placed }

        // Each region is in its own domain's place, and no two have the same first line.
        ensures lawful { IsLawful self.now }
    {
        self.placed
    }

    /// The region of a domain. `None` says that the domain has none, or that there is no such domain.
    pub fn of(&self, domain: u8) -> Option<Region>
        ensures region { result ≡ region_in self.now.places domain }
        ensures own { IfSome result (λ r. r.domain ≡ domain) }
        ensures low { IfSome result (λ r. r.first_line < 2 ^ 60) }
    {
        let place = domain as usize;
        if place < DOMAINS {
            self.places[place]
        } else {
            None
        }
    }

    /// Places a region of these ways in a domain, and returns it. Region number k, counted over all that were placed
    /// from 0, has the first line 2^52 + k * 2^32 (this project's profile).
    pub fn place(&mut self, gid: Gid, domain: u8, mask: u32) -> Region
        requires exists { domain < DOMAINS }
        requires free { region_in self.old.places domain ≡ None }
        requires limit { self.old.placed < MAX_PLACED }
        ensures region { result ≡ next_region self.old gid domain mask }
        ensures placed { self.new ≡ with_region (next_region self.old gid domain mask) self.old }
    {
        let region = Region {
            gid,
            domain,
            mask,
            first_line: first_line_of(self.placed),
        };
        self.places[domain as usize] = Some(region);
        self.placed += 1;
        region
    }

    /// Removes every region of a group, and no other. What was placed is still counted.
    pub fn remove(&mut self, gid: Gid)
        ensures { self.new ≡ without_group gid self.old }
    {
        clear(&mut self.places, gid);
    }
}

// The first line of the region with this number, counted over all that were placed, from 0.
fn first_line_of(number: u32) -> u64
    requires { number < MAX_PLACED }
    ensures { result ≡ first_line_of number }
{
    FIRST_LINE + u64::from(number) * LINES_APART
}

// Clears each place that has a region of the group.
fn clear(places: &mut [Option<Region>; DOMAINS], gid: Gid)
    ensures { places.new ≡ map (without gid) places.old }
{
    for domain in 0..places.len() {
        places[domain] = without(places[domain], gid);
    }
}
