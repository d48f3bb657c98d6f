//! Masks as sets of ways.
ghost use Rattle.std.specs.Prelude.{◌≡◌, ◌↔◌, ◌<◌, length};
ghost use Rattle.cbm.specs.Masks.{has_way, lowest_run, overlaps, ways_of};

/// Whether a mask has this way, the lowest being way 0.
pub fn has_way(mask: u32, way: u8) -> bool
    requires { way < 32 }
    ensures { result ≡ has_way mask way }
{
    (mask >> way) & 1 == 1
}

/// How many ways a mask has, from 0 to 32.
pub fn count(mask: u32) -> u32
    ensures { result ≡ length (ways_of mask) }
{
    mask.count_ones()
}

/// Whether two masks have a way in common (kernel documentation, "Resource alloc and monitor groups", on the overlap
/// of an exclusive group).
pub fn overlaps(a: u32, b: u32) -> bool
    ensures { result ≡ overlaps a b }
{
    a & b != 0
}

/// The lowest run of adjacent ways of a mask, as a mask, and 0 where the mask has no way (this project's profile).
pub fn lowest_run(mask: u32) -> u32
    ensures run { ways_of result ≡ lowest_run (ways_of mask) }
    ensures empty { (result ≡ 0) ↔ (mask ≡ 0) }
{
    if mask == 0 {
        return 0;
    }
    let bits = u64::from(mask);
    let low = bits.trailing_zeros();
    let run = (bits >> low).trailing_ones();
    (bits % (1 << (low + run))) as u32
}
