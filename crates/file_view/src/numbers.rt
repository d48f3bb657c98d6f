//! Numbers, masks and flags on their lines.
ghost use Rattle.std.specs.Prelude.{◌≡◌, ◌+◌, ◌≤◌, ◌++◌, length};
ghost use Rattle.machine.specs.Maps.{parameters_of};
ghost use Rattle.file_view.specs.MachineFiles.{cbm_mask_text, flag_line, mask_line, number_line};

use machine::Machine;
use num_text::{push_dec, push_hex};
use rc_base::TextBuf;

/// Room for a number on its line, in bytes: the longest has 20 digits.
pub(crate) const NUMBER_MAX: usize = 21;

/// Adds a number in decimal, on its line.
pub(crate) fn push_number(n: u64, out: &mut TextBuf)
    requires room { NUMBER_MAX ≤ out.old.spare }
    ensures bytes { out.new.bytes ≡ out.old.bytes ++ number_line n }
    ensures spare { out.new.spare + length (number_line n) ≡ out.old.spare }
{
    push_dec(n, out);
    out.push(b'\n');
}

/// Adds a mask in hexadecimal without leading zeros, on its line.
pub(crate) fn push_mask(mask: u32, out: &mut TextBuf)
    requires room { NUMBER_MAX ≤ out.old.spare }
    ensures bytes { out.new.bytes ≡ out.old.bytes ++ mask_line mask }
    ensures spare { out.new.spare + length (mask_line mask) ≡ out.old.spare }
{
    push_hex(u64::from(mask), 0, out);
    out.push(b'\n');
}

/// Adds `1` or `0`, on its line.
pub(crate) fn push_flag(flag: bool, out: &mut TextBuf)
    requires room { NUMBER_MAX ≤ out.old.spare }
    ensures bytes { out.new.bytes ≡ out.old.bytes ++ flag_line flag }
    ensures spare { out.new.spare + length (flag_line flag) ≡ out.old.spare }
{
    out.push(if flag { b'1' } else { b'0' });
    out.push(b'\n');
}

/// Adds the mask of every way, on its line.
pub(crate) fn push_full(m: &Machine, out: &mut TextBuf)
    requires room { NUMBER_MAX ≤ out.old.spare }
    ensures bytes { out.new.bytes ≡ out.old.bytes ++ cbm_mask_text (parameters_of m.now) }
    ensures spare { out.new.spare + length (cbm_mask_text (parameters_of m.now)) ≡ out.old.spare }
{
    push_mask(m.full(), out);
}
