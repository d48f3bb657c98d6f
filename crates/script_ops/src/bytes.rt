//! A text of an op.
ghost use Rattle.std.specs.Prelude.{◌≡◌, IfOk};

use rc_base::NoMemory;
use std::alloc::Global;
use std::marker::Model;

/// A text of an op. Contracts see its bytes. It takes one pointer, since each command of a script has room for a text.
#[derive(Drop)]
pub struct Bytes {
    text: Box<Vec<u8>>,
}

impl Model for Bytes {
    ghost use Rattle.std.specs.Prelude.{List, ℕ};

    ghost Value = { List ℕ };

    ghost view = { λ b. b.text.value.items };
}

impl Bytes {
    /// These bytes.
    pub fn from_vec(alloc: Global, text: Vec<u8>) -> Result<Bytes, NoMemory>
        ensures { IfOk result (λ b. b ≡ text.items) }
    {
        let text = Box::new(alloc, text)?;
        Ok(Bytes { text })
    }

    /// The bytes.
    pub fn as_slice(&self) -> &[u8]
        ensures { result.now ≡ self.now }
    {
        self.text.as_slice()
    }
}
