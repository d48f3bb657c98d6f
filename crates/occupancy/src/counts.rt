//! One number for each RMID, and their sum.
ghost use Rattle.std.specs.Prelude.{◌≡◌, ℕ, ◌+◌, ◌-◌, ◌==◌, ◌^◌, ◌<◌, if◌then◌else◌, length, slice_index, IfOk};
ghost use Rattle.lists.specs.Sums.{one_if, sum_below};

use rc_base::NoMemory;
use std::alloc::Global;
use std::marker::Model;

/// How many lines each RMID has. Contracts see the list of the numbers. Their sum is kept beside them.
#[derive(Drop)]
pub struct Counts {
    each: Vec<u64>,
    total: u64,
}

impl Model for Counts {
    ghost use Rattle.std.specs.Prelude.{◌≡◌, ℕ, List, length, slice_index};
    ghost use Rattle.lists.specs.Sums.{sum_below};

    ghost Value = { List ℕ };

    ghost view = { λ c. c.each.items };

    ghost invariant = { λ c. c.total ≡ sum_below (length c.each.items) (slice_index c.each.items) };
}

impl Counts {
    /// No line of any of the RMIDs, which are counted from 0. NoMemory where the allocator gives no room for their numbers.
    pub fn create(alloc: Global, rmids: u16) -> Result<Counts, NoMemory>
        ensures size { IfOk result (λ c. length c ≡ rmids) }
        ensures none { IfOk result (λ c. (r : ℕ) → slice_index c r ≡ 0) }
    {
        let each = vec![in alloc; 0; rmids as usize]?;
        Ok(Counts { each, total: 0 })
    }

    /// One more line of this RMID.
    pub fn add(&mut self, rmid: u16)
        requires rmid { rmid < length self.old }
        requires room { sum_below (length self.old) (slice_index self.old) < 2 ^ 64 - 1 }
        ensures size { length self.new ≡ length self.old }
        ensures more { (r : ℕ) → slice_index self.new r ≡ slice_index self.old r + one_if (rmid == r) }
    {
        self.each[rmid as usize] += 1;
        self.total += 1;
    }

    /// So many lines more of this RMID.
    pub fn add_lines(&mut self, rmid: u16, lines: u64)
        requires rmid { rmid < length self.old }
        requires room { sum_below (length self.old) (slice_index self.old) + lines < 2 ^ 64 }
        ensures size { length self.new ≡ length self.old }
        ensures more { (r : ℕ) → slice_index self.new r ≡ slice_index self.old r + (if rmid == r then lines else 0) }
    {
        self.each[rmid as usize] += lines;
        self.total += lines;
    }

    /// One line less of this RMID.
    pub fn sub(&mut self, rmid: u16)
        requires rmid { rmid < length self.old }
        requires some { 0 < slice_index self.old rmid }
        ensures size { length self.new ≡ length self.old }
        ensures less { (r : ℕ) → slice_index self.old r ≡ slice_index self.new r + one_if (rmid == r) }
    {
        self.each[rmid as usize] -= 1;
        self.total -= 1;
    }

    /// How many lines an RMID has.
    pub fn of(&self, rmid: u16) -> u64
        requires { rmid < length self.now }
        ensures { result ≡ slice_index self.now rmid }
    {
        self.each[rmid as usize]
    }

    /// How many lines all RMIDs have together.
    pub fn total(&self) -> u64
        ensures { result ≡ sum_below (length self.now) (slice_index self.now) }
    {
        self.total
    }

    /// Takes every line away. Where there is none, nothing is done.
    pub fn clear(&mut self)
        ensures size { length self.new ≡ length self.old }
        ensures none { (r : ℕ) → slice_index self.new r ≡ 0 }
    {
        if self.total > 0 {
            self.each.fill(0);
            self.total = 0;
        }
    }
}
