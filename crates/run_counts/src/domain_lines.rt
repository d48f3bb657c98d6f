//! The lines of a domain.
ghost use Rattle.std.specs.Prelude.{◌≡◌, ◌<◌, length};
ghost use Rattle.run_counts.specs.DomainLines.{lines_in};

use std::marker::Model;

/// How many lines each RMID has in a domain, and how many there are.
#[derive(Drop)]
pub struct DomainLines {
    counts: Vec<u64>,
    valid: u64,
}

impl Model for DomainLines {
    ghost use Rattle.run_counts.specs.DomainLines.{DomainLinesValue};

    ghost Value = { DomainLinesValue };

    ghost view = { λ d. record { counts = d.counts.items; valid = d.valid } };
}

impl DomainLines {
    /// These counts of lines, one for each RMID, and how many lines there are.
    pub(crate) fn of(counts: Vec<u64>, valid: u64) -> DomainLines
        ensures counts { result.counts ≡ counts.items }
        ensures valid { result.valid ≡ valid }
    {
        DomainLines { counts, valid }
    }

    /// How many lines an RMID has.
    pub fn lines(&self, rmid: u16) -> u64
        requires { rmid < length self.now.counts }
        ensures { result ≡ lines_in self.now rmid }
    {
        self.counts[usize::from(rmid)]
    }

    /// How many lines there are.
    pub fn valid(&self) -> u64
        ensures { result ≡ self.now.valid }
    {
        self.valid
    }
}
