//! A program that takes its input piece by piece.
ghost use Rattle.std.specs.Prelude.{◌≡◌, ◌+◌, ◌≤◌, ◌<◌, ◌^◌, ℕ, List, [], ◌++◌, length, IfOk, Ok};
ghost use Rattle.call_rim.specs.Performing.{Performs, Takes};
ghost use Rattle.call_rim.specs.declared.stream_program.Taken.TheVariants.{More};

use crate::performed::Performed;
use rc_base::NoMemory;
use std::alloc::Global;

/// The most bytes that are read of a stream: 2^56, which at 10^9 bytes a second takes two years. A stream that has not ended by
/// then ends the call as one that is out of memory. So a count of bytes, or of a hundred things a byte, fits 64 bits.
pub const MOST_STREAM_BYTES: u64 = 72_057_594_037_927_936;

/// What became of a piece of an input.
#[derive(Drop)]
pub enum Taken {
    /// It was taken, and more may follow.
    More,
    /// The input is refused whatever follows, and this is the line that says so, with its newline.
    Refused { line: Vec<u8> },
    /// Out of memory.
    NoMemory,
}

/// A program, with what its words ask for, that takes its input piece by piece and keeps a state in place of the bytes. So its
/// input may have any length (of `MOST_STREAM_BYTES`).
pub trait StreamProgram {
    /// What is kept of the bytes so far.
    type State: Drop;

    /// What it hands back beside its report.
    type Outcome: Drop;

    /// The state is that after these bytes, from the first on.
    ghost has_taken: { Self → Self.State → List ℕ → Type 0 };

    /// These bytes, from the first on, are not refused so far. What that is, is for the program to say; so it promises to refuse an
    /// input as soon as its beginning is not good, without reading on.
    ghost good_so_far: { Self → List ℕ → Type 0 };

    /// How many bytes the state has taken.
    ghost count: { Self → Self.State → ℕ };

    /// An input of these bytes is refused with this line.
    ghost refuses: { Self → List ℕ → List ℕ → Type 0 };

    /// An input of these bytes has this outcome and this report.
    ghost reports: { Self → List ℕ → Self.Outcome → List ℕ → Type 0 };

    /// The state before the first byte.
    fn begin(&self, alloc: Global) -> Result<Self::State, NoMemory>
        ensures nothing { IfOk result (λ state. has_taken self.now state []) }
        ensures good { IfOk result (λ state. good_so_far self.now []) }
        ensures count { IfOk result (λ state. count self.now state ≡ 0) };

    /// Takes the next bytes of the input. `More` where all of them so far are good.
    fn take(&self, alloc: Global, state: &mut Self::State, piece: &[u8]) -> Taken
        requires room { count self.now state.old + length piece.now < 2 ^ 57 }
        ensures taken { (bytes : List ℕ) → has_taken self.now state.old bytes → Takes (has_taken self.now state.new) (good_so_far self.now) (refuses self.now) (bytes ++ piece.now) result }
        ensures count { result ≡ More → count self.now state.new ≡ count self.now state.old + length piece.now };

    /// What it makes of the input, after its last byte.
    fn finish(&self, alloc: Global, state: Self::State) -> Performed<Self::Outcome>
        ensures { (bytes : List ℕ) → has_taken self.now state bytes → Performs (refuses self.now) (reports self.now) bytes result };
}
