//! The first uses of each part of a report, if they are counted.
ghost use Rattle.std.specs.Prelude.{◌≡◌, option_map};

use crate::FirstUses;

/// The first uses of all uses, if they are counted.
pub(crate) fn first_of_all(first: Option<FirstUses>) -> Option<u64>
    ensures { result ≡ option_map (λ f. f.of_all) first }
{
    match first {
        Some(first) => Some(first.of_all),
        None => None,
    }
}

/// The first uses of the uses of data, if they are counted.
pub(crate) fn first_of_data(first: Option<FirstUses>) -> Option<u64>
    ensures { result ≡ option_map (λ f. f.of_data) first }
{
    match first {
        Some(first) => Some(first.of_data),
        None => None,
    }
}

/// The first uses of the uses of code, if they are counted.
pub(crate) fn first_of_code(first: Option<FirstUses>) -> Option<u64>
    ensures { result ≡ option_map (λ f. f.of_code) first }
{
    match first {
        Some(first) => Some(first.of_code),
        None => None,
    }
}
