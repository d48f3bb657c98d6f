//! The slices of all domains, numbered by domain and then by slice (this project's profile).
ghost use Rattle.std.specs.Prelude.{◌≡◌, ◌<◌, ◌≤◌};
ghost use Rattle.machine.specs.Maps.{parameters_of};
ghost use Rattle.machine.specs.Slices.{slice_count, slice_number, slice_of_line};

use crate::machine::Machine;

impl Machine {
    /// How many slices the caches of all domains have, from 1 to 32.
    pub fn slice_count(&self) -> u8
        ensures count { result ≡ slice_count (parameters_of self.now) }
        ensures limit { result ≤ 32 }
    {
        self.domains * self.slices
    }

    /// The number of the first slice of a domain.
    pub fn first_slice(&self, domain: u8) -> usize
        ensures { result ≡ slice_number (parameters_of self.now) domain 0 }
    {
        usize::from(domain) * usize::from(self.slices)
    }

    /// The number of a slice of a domain.
    pub fn slice_number(&self, domain: u8, slice: u8) -> usize
        requires domain_there { domain < self.now.domains }
        requires slice_there { slice < self.now.slices }
        ensures number { result ≡ slice_number (parameters_of self.now) domain slice }
        ensures within { result < slice_count (parameters_of self.now) }
    {
        self.first_slice(domain) + usize::from(slice)
    }

    /// The number of the slice of a line in a domain.
    pub fn line_slice(&self, domain: u8, line: u64) -> usize
        requires { domain < self.now.domains }
        ensures number { result ≡ slice_of_line (parameters_of self.now) domain line }
        ensures within { result < slice_count (parameters_of self.now) }
    {
        self.slice_number(domain, self.slice_of(line))
    }
}
