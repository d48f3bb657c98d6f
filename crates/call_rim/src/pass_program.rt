//! A program that passes its input on: its text leaves before the input has ended.
ghost use Rattle.std.specs.Prelude.{◌≡◌, ◌+◌, ◌≤◌, ◌<◌, ◌^◌, ℕ, List, [], ◌∷◌, ◌++◌, length, IfOk};
ghost use Rattle.call_rim.specs.Passing.{EndsAs, TakesByte};
ghost use Rattle.call_rim.specs.declared.pass_program.Passing.TheVariants.{Good};
ghost use Rattle.call_rim.specs.declared.pass_program.TheConstants.{MOST_DUE_BYTES};

use rc_base::{NoMemory, TextBuf};
use std::alloc::Global;

/// The most bytes of a text that one byte of an input makes due, or its end (this project's profile).
pub const MOST_DUE_BYTES: usize = 4_096;

/// What became of a part of an input.
#[derive(Clone, Copy, Debug, PartialEq, Eq)]
pub enum Passing {
    /// It was passed on.
    Good,
    /// The input is refused whatever follows, and the text ends with the line that says so.
    Refused,
}

/// A program, with what its words ask for, that takes its input byte by byte and hands out a text as soon as it is due, so that neither
/// is kept. Both may have any length (the input of `MOST_STREAM_BYTES`).
pub trait PassProgram {
    /// What is kept of the bytes so far.
    type State: Drop;

    /// The state is that after these bytes, from the first on, of which this text was handed out.
    ghost has_passed: { Self → Self.State → List ℕ → List ℕ → Type 0 };

    /// How many bytes the state has taken.
    ghost count: { Self → Self.State → ℕ };

    /// After these bytes of an input, from the first on, this text is due, whatever follows.
    ghost due: { Self → List ℕ → List ℕ → Type 0 };

    /// An input of these bytes is refused with this text, which ends with the line that says so.
    ghost refuses: { Self → List ℕ → List ℕ → Type 0 };

    /// An input of these bytes has this text.
    ghost passes: { Self → List ℕ → List ℕ → Type 0 };

    /// The state before the first byte.
    fn begin(&self, alloc: Global) -> Result<Self::State, NoMemory>
        ensures nothing { IfOk result (λ state. has_passed self.now state [] []) }
        ensures due { due self.now [] [] }
        ensures count { IfOk result (λ state. count self.now state ≡ 0) };

    /// Takes the next byte of the input, and adds the text that is due with it.
    fn take(&self, state: &mut Self::State, byte: u8, out: &mut TextBuf) -> Passing
        requires few { count self.now state.old + 1 < 2 ^ 57 }
        requires room { MOST_DUE_BYTES ≤ out.old.spare }
        ensures taken { (bytes written : List ℕ) → has_passed self.now state.old bytes (written ++ out.old.bytes)
            → TakesByte (has_passed self.now state.new) (due self.now) (refuses self.now) (bytes ++ byte ∷ []) (written ++ out.new.bytes) result }
        ensures count { result ≡ Good → count self.now state.new ≡ count self.now state.old + 1 }
        ensures room { result ≡ Good → length out.old.bytes + out.old.spare ≤ length out.new.bytes + out.new.spare };

    /// Adds the rest of the text, after the last byte of the input.
    fn finish(&self, state: Self::State, out: &mut TextBuf) -> Passing
        requires { MOST_DUE_BYTES ≤ out.old.spare }
        ensures { (bytes written : List ℕ) → has_passed self.now state bytes (written ++ out.old.bytes)
            → EndsAs (passes self.now) (refuses self.now) bytes (written ++ out.new.bytes) result };
}
