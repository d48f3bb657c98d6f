//! Whether a mask is valid.
ghost use Rattle.std.specs.Prelude.{◌≡◌, ◌≤◌, ◌<◌, ◌^◌, IfOk};
ghost use Rattle.cbm.specs.Validity.{checked};

use crate::fault::CbmFault;
use crate::geometry::Geometry;
use crate::sets::{count, lowest_run};

/// The mask where it is valid, and else its first fault.
///
/// A mask is valid where it has a way, all its ways exist, it has every way between its least and its greatest
/// unless the cache is sparse, and its lowest run of adjacent ways has at least `min` of them (SDM volume 3,
/// "Cache Allocation Technology", and the kernel documentation on `min_cbm_bits` and `sparse_masks`; that the
/// lowest run is the one that counts is this project's profile).
pub fn check(bits: u64, g: &Geometry) -> Result<u32, CbmFault>
    requires { g.now.len ≤ 32 }
    ensures exact { result ≡ checked g.now bits }
    ensures range { IfOk result (λ mask. (0 < mask) × (mask < 2 ^ g.now.len)) }
{
    if bits == 0 || bits >> g.len != 0 {
        return Err(CbmFault::Range);
    }
    let mask = bits as u32;
    let run = lowest_run(mask);
    if !g.sparse && run != mask {
        return Err(CbmFault::Gaps);
    }
    if count(run) < u32::from(g.min) {
        return Err(CbmFault::TooFew);
    }
    Ok(mask)
}
