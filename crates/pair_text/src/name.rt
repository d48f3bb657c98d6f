//! Names of groups.
ghost use Rattle.std.specs.Prelude.{◌≡◌, ◌≤◌, length};

use arrayvec::ArrayVec;
use path_names::MOST_NAME_BYTES;
use std::marker::Model;

/// The name of a group's directory, without a slash. Contracts see its bytes. It takes no memory of its own: it has at most
/// `MOST_NAME_BYTES` bytes, as each component of a path does.
#[derive(Drop)]
pub struct GroupName {
    bytes: ArrayVec<u8, MOST_NAME_BYTES>,
}

impl Model for GroupName {
    ghost use Rattle.std.specs.Prelude.{List, ℕ};

    ghost Value = { List ℕ };

    ghost view = { λ n. n.bytes.items };
}

impl GroupName {
    /// The name of these bytes.
    pub fn new(name: &[u8]) -> GroupName
        requires { length name.now ≤ MOST_NAME_BYTES }
        ensures { result ≡ name.now }
    {
        match ArrayVec::try_from(name) {
            Ok(bytes) => GroupName { bytes },
            Err(_) => unreachable!(),
        }
    }

    /// The bytes.
    pub fn as_slice(&self) -> &[u8]
        ensures { result.now ≡ self.now }
    {
        self.bytes.as_slice()
    }
}
