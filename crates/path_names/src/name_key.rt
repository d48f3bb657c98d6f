//! Short names as numbers.
ghost use Rattle.std.specs.Prelude.{◌≡◌, ◌≤◌, length};
ghost use Rattle.path_names.specs.NameKeys.{has_key, key_of};

/// The most bytes of a name that has a key: a key has 128 bits, and the leading 1 takes some of them.
pub(crate) const MOST_KEY_BYTES: usize = 15;

/// Whether the name is short enough for a key.
pub(crate) fn has_key(name: &[u8]) -> bool
    ensures { result ≡ has_key name.now }
{
    name.len() <= MOST_KEY_BYTES
}

/// The name as one number: its bytes as digits of base 256, after a leading 1. Different names have different keys.
pub(crate) fn key_of(name: &[u8]) -> u128
    requires { length name.now ≤ MOST_KEY_BYTES }
    ensures { result ≡ key_of name.now }
{
    let mut key = 1;
    for byte in name {
        key = key * 256 + u128::from(*byte);
    }
    key
}
