//! A machine, whose parameters are in range.
ghost use Rattle.std.specs.Prelude.{◌≡◌, ◌<◌};
ghost use Rattle.machine.specs.CpuTables.{IsCpuTable};
ghost use Rattle.machine.specs.Ranges.{InRange};

use crate::cpu_table::{MOST_CPUS, cpu_table};
use crate::parameters::Parameters;
use cbm::{Geometry, count};

/// A machine (this project's profile): `domains` L3 caches of `sets` sets of `ways` ways, each line of 64 bytes.
#[derive(Clone, Copy, Debug, PartialEq, Eq)]
pub struct Machine {
    /// L3 caches, each with the CPUs that it serves.
    pub domains: u8,
    /// Sets of a cache, a power of two.
    pub sets: u32,
    /// Ways of a set.
    pub ways: u8,
    /// Classes of service (CLOSIDs).
    pub classes: u8,
    /// Resource monitoring ids (RMIDs).
    pub rmids: u16,
    /// CPUs.
    pub cpus: u8,
    /// The least number of adjacent ways of a mask (`min_cbm_bits`).
    pub min: u8,
    /// The ways that other hardware uses too (`shareable_bits`).
    pub shareable: u32,
    /// How many bytes a freed RMID may still have in each cache (`max_threshold_occupancy`).
    pub threshold: u64,
    /// Whether masks may have gaps (`sparse_masks`).
    pub sparse: bool,
    /// Slices of a cache, a power of two. Set s is in slice s mod `slices`.
    pub slices: u8,
    // The cache that serves each CPU.
    domain_by_cpu: [u8; MOST_CPUS],
    pub ghost in_range: { InRange (record {
      domains = domains;
      sets = sets;
      ways = ways;
      classes = classes;
      rmids = rmids;
      cpus = cpus;
      min = min;
      shareable = shareable;
      threshold = threshold;
      sparse = sparse;
      slices = slices;
    }) },
    pub ghost tabled: { IsCpuTable domains cpus domain_by_cpu },
}

impl Machine {
    ghost use Rattle.std.specs.Prelude.{◌%◌, ◌↔◌, IsTrue, IsSome, IfSome};
    ghost use Rattle.std.specs.List.{range_with_len};
    ghost use Rattle.cbm.specs.Masks.{ways_of};
    ghost use Rattle.machine.specs.Ranges.{InRange, is_machine};
    ghost use Rattle.machine.specs.Maps.{bytes_of, cache_bytes, domain_of, parameters_of, set_of, slice_of};

    /// The machine with these parameters, where each is in its range.
    pub fn checked(parameters: &Parameters) -> Option<Machine>
        ensures in_range { IsSome result ↔ IsTrue (is_machine parameters.now) }
        ensures kept { IfSome result (λ m. parameters_of m ≡ parameters.now) }
    {
        if parameters.are_in_range() {
            Some(Machine::of(parameters))
        } else {
            None
        }
    }

    // The machine with these parameters, which are in their ranges.
    fn of(parameters: &Parameters) -> Machine
        requires { InRange parameters.now }
        ensures { parameters_of result ≡ parameters.now }
    {
        Machine {
            domains: parameters.domains,
            sets: parameters.sets,
            ways: parameters.ways,
            classes: parameters.classes,
            rmids: parameters.rmids,
            cpus: parameters.cpus,
            min: parameters.min,
            shareable: parameters.shareable,
            threshold: parameters.threshold,
            sparse: parameters.sparse,
            slices: parameters.slices,
            domain_by_cpu: cpu_table(parameters),
        }
    }

    /// What a valid mask of one of its caches looks like.
    pub fn geometry(&self) -> Geometry
        ensures len { result.len ≡ self.now.ways }
        ensures min { result.min ≡ self.now.min }
        ensures sparse { result.sparse ≡ self.now.sparse }
    {
        Geometry {
            len: self.ways,
            min: self.min,
            sparse: self.sparse,
        }
    }

    /// The mask of every way (kernel documentation, `cbm_mask`).
    pub fn full(&self) -> u32
        ensures { ways_of result ≡ range_with_len 0 self.now.ways }
    {
        u32::MAX >> (32 - self.ways)
    }

    /// The cache that serves a CPU, read from a table. CPUs are shared out in order, as evenly as they go.
    pub fn domain_of(&self, cpu: u8) -> u8
        requires { cpu < self.now.cpus }
        ensures domain { result ≡ domain_of (parameters_of self.now) cpu }
        ensures below { result < self.now.domains }
    {
        self.domain_by_cpu[usize::from(cpu)]
    }

    /// The set that a line belongs to. Sets are a power of two, so that nothing is divided.
    pub fn set_of(&self, line: u64) -> u32
        ensures set { result ≡ set_of (parameters_of self.now) line }
        ensures below { result < self.now.sets }
    {
        (line & u64::from(self.sets - 1)) as u32
    }

    /// The slice that a line belongs to, which is that of its set. Slices are a power of two too.
    pub fn slice_of(&self, line: u64) -> u8
        ensures slice { result ≡ slice_of (parameters_of self.now) (set_of (parameters_of self.now) line) }
        ensures line { result ≡ line % self.now.slices }
        ensures below { result < self.now.slices }
    {
        (line & u64::from(self.slices - 1)) as u8
    }

    /// The part of one cache that a mask allows, in bytes (kernel documentation, the file `size`).
    pub fn bytes_of(&self, mask: u32) -> u64
        ensures { result ≡ bytes_of (parameters_of self.now) (ways_of mask) }
    {
        u64::from(self.sets) * 64 * u64::from(count(mask))
    }

    /// The size of one cache in bytes.
    pub fn cache_bytes(&self) -> u64
        ensures { result ≡ cache_bytes (parameters_of self.now) }
    {
        u64::from(self.sets) * 64 * u64::from(self.ways)
    }
}

impl Default for Machine {
    ghost use Rattle.machine.specs.Maps.{parameters_of};
    ghost use Rattle.machine.specs.Ranges.{usual};

    ghost is_default = { λ m. parameters_of m ≡ usual };

    /// The machine of the parameters by default.
    fn default() -> Self {
        Machine::of(&Parameters::default())
    }
}
