//! A text that grows.
ghost use Rattle.std.specs.Prelude.{◌≡◌, ◌≤◌, [], ◌∷◌, ◌++◌, IfOk, OnOk, decimal};
ghost use Rattle.num_text.specs.Printed.{hexadecimal};

use crate::decimals::push_dec;
use crate::hexadecimals::push_hex;
use rc_base::{NoMemory, TextBuf};
use std::alloc::Global;
use std::marker::Model;

// The most digits of a number below 2^64.
const MOST_DECIMAL_DIGITS: usize = 20;

const MOST_HEXADECIMAL_DIGITS: usize = 16;

/// A text that grows. Contracts see its bytes. An error of its calls is out of memory, after which a part of what was to be
/// added may have been added.
#[derive(Drop)]
pub struct GrowingText {
    text: TextBuf,
}

impl Model for GrowingText {
    ghost use Rattle.std.specs.Prelude.{List, ℕ};

    ghost Value = { List ℕ };

    ghost view = { λ t. t.text.bytes };
}

impl GrowingText {
    /// An empty text.
    pub fn create(alloc: Global) -> Result<GrowingText, NoMemory>
        ensures { IfOk result (λ t. t ≡ []) }
    {
        let text = TextBuf::with_room(alloc, 0)?;
        Ok(GrowingText { text })
    }

    /// The bytes.
    pub fn bytes(&self) -> &[u8]
        ensures { result.now ≡ self.now }
    {
        self.text.bytes()
    }

    /// Adds these bytes.
    #[inline]
    pub fn push(&mut self, piece: &[u8]) -> Result<(), NoMemory>
        ensures { OnOk result (self.new ≡ self.old ++ piece.now) }
    {
        match piece {
            [byte] => self.push_byte(*byte),
            _ => self.text.append(piece),
        }
    }

    // Adds one byte.
    #[inline]
    fn push_byte(&mut self, byte: u8) -> Result<(), NoMemory>
        ensures { OnOk result (self.new ≡ self.old ++ byte ∷ []) }
    {
        self.text.reserve(1)?;
        self.text.push(byte);
        Ok(())
    }

    /// Adds a number in decimal.
    pub fn push_decimal(&mut self, n: u64) -> Result<(), NoMemory>
        ensures { OnOk result (self.new ≡ self.old ++ decimal n) }
    {
        self.text.reserve(MOST_DECIMAL_DIGITS)?;
        push_dec(n, &mut self.text);
        Ok(())
    }

    /// Adds a number in decimal after a word.
    pub fn push_number(&mut self, word: &[u8], n: u64) -> Result<(), NoMemory>
        ensures { OnOk result (self.new ≡ self.old ++ (word.now ++ decimal n)) }
    {
        self.push(word)?;
        self.push_decimal(n)
    }

    /// Adds a number in hexadecimal, of so many digits at least.
    pub fn push_hexadecimal(&mut self, n: u64, width: u8) -> Result<(), NoMemory>
        requires { width ≤ 16 }
        ensures { OnOk result (self.new ≡ self.old ++ hexadecimal width n) }
    {
        self.text.reserve(MOST_HEXADECIMAL_DIGITS)?;
        push_hex(n, width, &mut self.text);
        Ok(())
    }

    /// The bytes. It takes no memory.
    pub fn into_bytes(self) -> Vec<u8>
        ensures { result.items ≡ self }
    {
        self.text.into_bytes()
    }
}
