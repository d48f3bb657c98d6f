//! The letter of a way.
ghost use Rattle.std.specs.Prelude.{◌≡◌, ◌<◌};
ghost use Rattle.cbm.specs.Masks.{has_way};
ghost use Rattle.bit_usage.specs.Letters.{letter_of};

use mode_rules::DomainUse;

/// A way of the pseudo-locked region.
pub const PSEUDO_LOCKED: u8 = b'P';

/// A way of an exclusive group.
pub const EXCLUSIVE: u8 = b'E';

/// A way that other hardware and a shareable group use.
pub const HARDWARE_AND_SOFTWARE: u8 = b'X';

/// A way that other hardware alone uses.
pub const HARDWARE: u8 = b'H';

/// A way of a shareable group.
pub const SOFTWARE: u8 = b'S';

/// A way that nobody uses.
pub const UNUSED: u8 = b'0';

/// The letter of a way: the first that holds of `P` in the pseudo-locked region, `E` in an exclusive group's mask,
/// `X` used by other hardware and in a shareable group's mask, `H` used by other hardware, `S` in a shareable
/// group's mask, and else `0` (kernel documentation, "Info directory", on `bit_usage`; the order is this project's
/// profile). `bit` is below 32.
#[tactic(auto, unfolding(crate::specs::Letters::letter_of))]
pub fn letter(used: &DomainUse, bit: u8) -> u8
    requires { bit < 32 }
    ensures { result ≡ letter_of used.now bit }
{
    let hardware = has(used.hardware, bit);
    let shared = has(used.shared, bit);
    if has(used.region, bit) {
        PSEUDO_LOCKED
    } else if has(used.exclusive, bit) {
        EXCLUSIVE
    } else if hardware && shared {
        HARDWARE_AND_SOFTWARE
    } else if hardware {
        HARDWARE
    } else if shared {
        SOFTWARE
    } else {
        UNUSED
    }
}

// Whether a mask has a way.
fn has(mask: u32, way: u8) -> bool
    requires { way < 32 }
    ensures { result ≡ has_way mask way }
{
    mask >> way & 1 == 1
}
