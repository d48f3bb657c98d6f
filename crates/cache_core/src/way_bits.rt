//! A word of ways, in which bit w stands for way w.
ghost use Rattle.std.specs.Prelude.{◌≡◌, ◌≢◌, ℕ, ◌<◌, ◌≤◌, true, false};
ghost use Rattle.cbm.specs.Masks.{has_way};
ghost use Rattle.cache_core.specs.History.{ways_below};

/// Whether the word has this way.
pub fn holds(word: u32, way: u8) -> bool
    requires { way < 32 }
    ensures { result ≡ has_way word way }
{
    (word >> way) & 1 == 1
}

/// How many of the first ways the word has.
pub fn count_below(word: u32, ways: u8) -> u32
    requires { ways ≤ 32 }
    ensures { result ≡ ways_below word ways }
{
    let mut count = 0;
    for way in 0..ways {
        if holds(word, way) {
            count += 1;
        }
    }
    count
}

/// The word with this way too.
pub fn with_way(word: u32, way: u8) -> u32
    requires { way < 32 }
    ensures way { has_way result way ≡ true }
    ensures others { (w : ℕ) → w ≢ way → has_way result w ≡ has_way word w }
{
    word | (1 << way)
}

/// The word without this way.
pub fn without_way(word: u32, way: u8) -> u32
    requires { way < 32 }
    ensures way { has_way result way ≡ false }
    ensures others { (w : ℕ) → w < 32 → w ≢ way → has_way result w ≡ has_way word w }
{
    word & !(1 << way)
}
