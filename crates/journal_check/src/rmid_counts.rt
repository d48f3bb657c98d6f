//! How many places of a slice hold a line of each RMID.
ghost use Rattle.std.specs.Prelude.{◌≡◌, ℕ, ◌+◌, ◌-◌, ◌^◌, ◌<◌, ◌==◌, if◌then◌else◌, IfOk, IfSome, length, slice_set};
ghost use Rattle.cache_core.specs.RmidCounts.{is_rmid};
ghost use Rattle.lists.specs.Sums.{one_if};
ghost use Rattle.journal_check.specs.RmidCounts.{AreZero, Recounts, count_at};

use rc_base::NoMemory;
use std::alloc::Global;
use std::marker::Model;

/// How many numbers an RMID can have.
pub const RMIDS: usize = 65_536;

/// What was last written of an RMID's count, and in which generation.
#[derive(Clone, Copy, Debug, PartialEq, Eq)]
pub struct Count {
    pub generation: u64,
    pub lines: u64,
}

/// A count for each number that an RMID can have. They are reset all at once: that begins a generation, in which RMID 0 has the lines
/// of a region and every other none until its count is written.
#[derive(Drop)]
pub struct RmidCounts {
    counts: Vec<Count>,
    generation: u64,
    region_lines: u64,
}

impl Model for RmidCounts {
    ghost use Rattle.journal_check.specs.RmidCounts.{AreCounts, CountsValue};

    ghost Value = { CountsValue };

    ghost view = { λ c. record { counts = c.counts.items; generation = c.generation; region_lines = c.region_lines } };

    ghost invariant = { λ c. AreCounts c.counts.items c.generation };
}

// So many counts of 0.
fn zeros(alloc: Global, count: usize) -> Result<Vec<Count>, NoMemory>
    ensures all { IfOk result (λ v. length v.items ≡ count) }
    ensures zero { IfOk result (λ v. AreZero v.items) }
{
    let zero = Count {
        generation: 0,
        lines: 0,
    };
    Ok(vec![in alloc; zero; count]?)
}

impl RmidCounts {
    /// Counts that are all 0.
    pub fn create(alloc: Global) -> Result<RmidCounts, NoMemory>
        ensures generation { IfOk result (λ c. c.generation ≡ 0) }
        ensures zero { IfOk result (λ c. (rmid : ℕ) → rmid < 65536 → count_at c rmid ≡ 0) }
    {
        let counts = zeros(alloc, RMIDS)?;
        Ok(RmidCounts {
            counts,
            generation: 0,
            region_lines: 0,
        })
    }

    /// The count of an RMID.
    pub fn of(&self, rmid: u16) -> u64
        ensures { result ≡ count_at self.now rmid }
    {
        let count = self.counts[rmid as usize];
        if count.generation == self.generation {
            count.lines
        } else if rmid == 0 {
            self.region_lines
        } else {
            0
        }
    }

    // Writes the count of an RMID.
    fn put(&mut self, rmid: u16, lines: u64)
        ensures generation { self.new.generation ≡ self.old.generation }
        ensures region_lines { self.new.region_lines ≡ self.old.region_lines }
        ensures there { rmid < length self.old.counts }
        ensures counts { self.new.counts ≡ slice_set self.old.counts rmid (record { generation = self.old.generation; lines = lines }) }
    {
        self.counts[rmid as usize] = Count {
            generation: self.generation,
            lines,
        };
    }

    // Counts one line less of an RMID, where there is one.
    fn take_one(&mut self, rmid: Option<u16>)
        requires { IfSome rmid (λ r. 0 < count_at self.old r) }
        ensures generation { self.new.generation ≡ self.old.generation }
        ensures counts { (r : ℕ) → r < 65536 → count_at self.new r + one_if (is_rmid rmid r) ≡ count_at self.old r }
    {
        if let Some(rmid) = rmid {
            self.put(rmid, self.of(rmid) - 1);
        }
    }

    // Counts one line more of an RMID, where there is one.
    fn add_one(&mut self, rmid: Option<u16>)
        requires { IfSome rmid (λ r. count_at self.old r < 2 ^ 64 - 1) }
        ensures generation { self.new.generation ≡ self.old.generation }
        ensures counts { (r : ℕ) → r < 65536 → count_at self.new r ≡ count_at self.old r + one_if (is_rmid rmid r) }
    {
        if let Some(rmid) = rmid {
            self.put(rmid, self.of(rmid) + 1);
        }
    }

    /// Counts a line of one RMID less, and one of another more, where there are such.
    pub fn recount(&mut self, left: Option<u16>, came: Option<u16>)
        requires left { IfSome left (λ r. 0 < count_at self.old r) }
        requires came { IfSome came (λ r. count_at self.old r < 2 ^ 64 - 1) }
        ensures generation { self.new.generation ≡ self.old.generation }
        ensures counts { Recounts self.old self.new left came }
    {
        self.take_one(left);
        self.add_one(came);
    }

    /// Resets all counts: RMID 0 has so many lines, and every other none.
    pub fn clear(&mut self, region_lines: u64)
        requires { self.old.generation < 2 ^ 64 - 1 }
        ensures generation { self.new.generation ≡ self.old.generation + 1 }
        ensures counts { (rmid : ℕ) → count_at self.new rmid ≡ (if rmid == 0 then region_lines else 0) }
    {
        self.generation += 1;
        self.region_lines = region_lines;
    }
}
