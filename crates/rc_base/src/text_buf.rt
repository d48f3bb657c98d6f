//! A text under construction, whose room is taken before it is used.
ghost use Rattle.std.specs.Prelude.{◌≡◌, ◌+◌, ◌≤◌, ◌<◌, [], ◌∷◌, ◌++◌, length, IfOk, OnOk};

use crate::names::NoMemory;
use std::alloc::Global;
use std::marker::Model;

/// Room for the text of any file or listing, in bytes (this project's profile).
pub const TEXT_MAX: usize = 131_072;

/// A text under construction. Contracts see its bytes, and as `spare` how many more fit.
#[derive(Drop)]
pub struct TextBuf {
    text: Vec<u8>,
}

impl Model for TextBuf {
    ghost use Rattle.std.specs.Prelude.{◌-◌, vec_len, vec_capacity};
    ghost use Rattle.rc_base.specs.Buffers.{Roomy};

    ghost Value = { Roomy };

    ghost view = { λ b. record { bytes = b.text.items; spare = vec_capacity b.text - vec_len b.text } };
}

impl TextBuf {
    /// An empty text with room for `n` bytes.
    pub fn with_room(alloc: Global, n: usize) -> Result<TextBuf, NoMemory>
        ensures empty { IfOk result (λ b. b.bytes ≡ []) }
        ensures room { IfOk result (λ b. b.spare ≡ n) }
    {
        let text = Vec::with_capacity(alloc, n)?;
        Ok(TextBuf { text })
    }

    /// Makes room for `n` bytes more. The text stays as it was. An error is out of memory.
    #[inline]
    pub fn reserve(&mut self, n: usize) -> Result<(), NoMemory>
        ensures bytes { self.new.bytes ≡ self.old.bytes }
        ensures spare { OnOk result (n ≤ self.new.spare) }
    {
        if self.text.capacity() - self.text.len() >= n {
            return Ok(());
        }
        self.text.reserve(n)?;
        Ok(())
    }

    /// The bytes so far.
    #[inline]
    pub fn bytes(&self) -> &[u8]
        ensures { result.now ≡ self.now.bytes }
    {
        self.text.as_slice()
    }

    /// Adds one byte, for which there is room.
    #[inline]
    pub fn push(&mut self, byte: u8)
        requires { 0 < self.old.spare }
        ensures bytes { self.new.bytes ≡ self.old.bytes ++ byte ∷ [] }
        ensures spare { self.new.spare + 1 ≡ self.old.spare }
    {
        self.text.push_reserved(byte);
    }

    /// Adds these bytes, for which there is room.
    pub fn push_all(&mut self, piece: &[u8])
        requires { length piece.now ≤ self.old.spare }
        ensures bytes { self.new.bytes ≡ self.old.bytes ++ piece.now }
        ensures spare { self.new.spare + length piece.now ≡ self.old.spare }
    {
        for byte in piece {
            self.text.push_reserved(*byte);
        }
    }

    /// Adds these bytes, with room taken for them where there is none. An error is out of memory, and then a part of them may have been
    /// added.
    pub fn append(&mut self, piece: &[u8]) -> Result<(), NoMemory>
        ensures { OnOk result (self.new.bytes ≡ self.old.bytes ++ piece.now) }
    {
        self.text.extend_from_slice(piece)?;
        Ok(())
    }

    /// Empties the text. The room that it took is spare again.
    pub fn clear(&mut self)
        ensures bytes { self.new.bytes ≡ [] }
        ensures spare { self.new.spare ≡ self.old.spare + length self.old.bytes }
    {
        self.text.clear();
    }
    /// The bytes. It takes no memory.
    pub fn into_bytes(self) -> Vec<u8>
        ensures { result.items ≡ self.bytes }
    {
        self.text
    }
}
