//! The parameters of a machine, as they are written down.
ghost use Rattle.std.specs.Prelude.{◌≡◌, ◌^◌, nat_lt};

/// The parameters of a machine, in range or not (this project's profile).
#[derive(Clone, Copy, Debug, PartialEq, Eq)]
pub struct Parameters {
    /// L3 caches, each with the CPUs that it serves: 1 to 8.
    pub domains: u8,
    /// Sets of a cache: a power of two up to 65,536.
    pub sets: u32,
    /// Ways of a set: 1 to 32.
    pub ways: u8,
    /// Classes of service (CLOSIDs): 1 to 64.
    pub classes: u8,
    /// Resource monitoring ids (RMIDs): 1 to 256.
    pub rmids: u16,
    /// CPUs: at least as many as domains, up to 64.
    pub cpus: u8,
    /// The least number of adjacent ways of a mask (`min_cbm_bits`): 1 to `ways`.
    pub min: u8,
    /// The ways that other hardware uses too (`shareable_bits`), as a mask of ways that exist.
    pub shareable: u32,
    /// How many bytes a freed RMID may still have in each cache (`max_threshold_occupancy`): up to those of one cache.
    pub threshold: u64,
    /// Whether masks may have gaps (`sparse_masks`).
    pub sparse: bool,
    /// Slices of a cache: 1, 2, 4, 8 or 16, and no more than sets.
    pub slices: u8,
}

impl Parameters {
    ghost use Rattle.machine.specs.Ranges.{has_caches, has_ids, has_masks, has_slices, is_machine};

    /// Whether each is in its range, and there are at most 1,048,576 lines and 32 slices in all caches together.
    #[tactic(auto, unfolding(crate::specs::Ranges::is_machine))]
    pub fn are_in_range(&self) -> bool
        ensures { result ≡ is_machine self.now }
    {
        self.have_caches() && self.have_slices() && self.have_ids() && self.have_masks()
    }

    fn have_caches(&self) -> bool
        ensures { result ≡ has_caches self.now }
    {
        let lines = u64::from(self.domains) * u64::from(self.sets) * u64::from(self.ways);
        1 <= self.domains
            && self.domains <= 8
            && self.sets.is_power_of_two()
            && self.sets <= 65_536
            && 1 <= self.ways
            && self.ways <= 32
            && lines <= 1_048_576
    }

    fn have_slices(&self) -> bool
        ensures { result ≡ has_slices self.now }
    {
        let slices = u32::from(self.slices);
        slices.is_power_of_two()
            && slices <= 16
            && slices <= self.sets
            && u32::from(self.domains) * slices <= 32
    }

    fn have_ids(&self) -> bool
        ensures { result ≡ has_ids self.now }
    {
        1 <= self.classes
            && self.classes <= 64
            && 1 <= self.rmids
            && self.rmids <= 256
            && self.domains <= self.cpus
            && self.cpus <= 64
    }

    fn have_masks(&self) -> bool
        ensures { result ≡ has_masks self.now }
    {
        let bytes = u64::from(self.sets) * 64 * u64::from(self.ways);
        1 <= self.min
            && self.min <= self.ways
            && fits(self.shareable, self.ways)
            && self.threshold <= bytes
    }
}

// Whether a mask has only ways that exist.
fn fits(mask: u32, ways: u8) -> bool
    ensures { result ≡ nat_lt mask (2 ^ ways) }
{
    ways >= 32 || mask >> ways == 0
}

impl Default for Parameters {
    ghost use Rattle.machine.specs.Ranges.{usual};

    ghost is_default = { λ p. p ≡ usual };

    /// One cache of 64 sets of 8 ways, with one CPU, 8 classes and 16 RMIDs.
    fn default() -> Self {
        Parameters {
            domains: 1,
            sets: 64,
            ways: 8,
            classes: 8,
            rmids: 16,
            cpus: 1,
            min: 1,
            shareable: 0,
            threshold: 0,
            sparse: false,
            slices: 1,
        }
    }
}
