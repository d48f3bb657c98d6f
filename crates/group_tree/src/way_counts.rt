//! For each way of a cache, how many groups have it.
ghost use Rattle.std.specs.Prelude.{◌≡◌, replicate};
ghost use Rattle.cbm.specs.Masks.{IsUnion};
ghost use Rattle.group_tree.specs.Counts.{added, removed};

// How many binary digits a count has: there are fewer than 2^9 groups.
const DIGITS: usize = 9;

/// For each way, how many masks have it. The counts stand side by side in binary: bit w of a digit is that digit of the
/// count of way w. So a mask is counted in all of its ways by a few operations.
#[derive(Clone, Copy, Debug)]
pub(crate) struct WayCounts {
    /// The digits of the counts, the lowest first.
    pub(crate) digits: [u32; DIGITS],
}

impl WayCounts {
    /// The counts of no masks.
    pub(crate) fn new() -> Self
        ensures { result.digits ≡ replicate 9 0 }
    {
        WayCounts {
            digits: [0; DIGITS],
        }
    }

    /// Counts a mask more.
    pub(crate) fn add(&mut self, mask: u32)
        ensures { self.new.digits ≡ added mask self.old.digits }
    {
        let mut carry = mask;
        for k in 0..DIGITS {
            if carry == 0 {
                return;
            }
            let digit = self.digits[k];
            self.digits[k] = digit ^ carry;
            carry &= digit;
        }
    }

    /// Counts a mask fewer.
    pub(crate) fn remove(&mut self, mask: u32)
        ensures { self.new.digits ≡ removed mask self.old.digits }
    {
        let mut borrow = mask;
        for k in 0..DIGITS {
            if borrow == 0 {
                return;
            }
            let digit = self.digits[k] ^ borrow;
            self.digits[k] = digit;
            borrow &= digit;
        }
    }

    /// The ways that some mask has.
    pub(crate) fn union(&self) -> u32
        ensures { IsUnion result self.now.digits }
    {
        let mut ways = 0;
        for digit in &self.digits {
            ways |= *digit;
        }
        ways
    }
}
