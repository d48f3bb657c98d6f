//! Which slots of a set are holes: a word in which bit p stands for slot p.
ghost use Rattle.std.specs.Prelude.{◌≡◌, ◌≢◌, ℕ, ◌<◌, ◌≤◌, true, false};
ghost use Rattle.way_curve.specs.Slots.{is_hole};

/// All 32 slots are holes.
pub(crate) const ALL_HOLES: u32 = u32::MAX;

/// Whether a slot is a hole.
pub(crate) fn is_hole(holes: u32, slot: usize) -> bool
    requires { slot < 32 }
    ensures { result ≡ is_hole holes slot }
{
    (holes >> slot) & 1 == 1
}

/// With this slot as a hole.
pub(crate) fn with_hole(holes: u32, slot: usize) -> u32
    requires { slot < 32 }
    ensures hole { is_hole result slot ≡ true }
    ensures others { (k : ℕ) → k ≢ slot → is_hole result k ≡ is_hole holes k }
{
    holes | (1 << slot)
}

/// With this slot as none.
pub(crate) fn without_hole(holes: u32, slot: usize) -> u32
    requires { slot < 32 }
    ensures line { is_hole result slot ≡ false }
    ensures others { (k : ℕ) → k < 32 → k ≢ slot → is_hole result k ≡ is_hole holes k }
{
    holes & !(1 << slot)
}

/// The first hole, and 32 where there is none.
#[inline(always)]
pub(crate) fn first_hole(holes: u32) -> usize
    ensures within { result ≤ 32 }
    ensures lines { (k : ℕ) → k < result → is_hole holes k ≡ false }
    ensures hole { result < 32 → is_hole holes result ≡ true }
{
    holes.trailing_zeros() as usize
}

/// The first slot behind all that have lines.
pub(crate) fn end_of_lines(holes: u32) -> usize
    ensures within { result ≤ 32 }
    ensures holes { (k : ℕ) → result ≤ k → k < 32 → is_hole holes k ≡ true }
{
    32 - (!holes).leading_zeros() as usize
}
