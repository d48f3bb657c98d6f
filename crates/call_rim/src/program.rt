//! A program that has its whole input before it begins.
ghost use Rattle.std.specs.Prelude.{◌≡◌, ◌≤◌, ◌<◌, ◌^◌, ℕ, List, length};
ghost use Rattle.call_rim.specs.Performing.{Performs};

use crate::performed::Performed;
use std::alloc::Global;

/// A program, with what its words ask for, that has its whole input before it begins.
pub trait Program {
    /// What it hands back beside its report.
    type Outcome: Drop;

    /// The most bytes of an input. One of more is refused as too large, and is not given to the program.
    ghost most: { Self → ℕ };

    /// An input of these bytes is refused with this line.
    ghost refuses: { Self → List ℕ → List ℕ → Type 0 };

    /// An input of these bytes has this outcome and this report.
    ghost reports: { Self → List ℕ → Self.Outcome → List ℕ → Type 0 };

    /// The most bytes of an input.
    fn most_bytes(&self) -> usize
        ensures most { result ≡ most self.now }
        ensures range { result < 2 ^ 62 };

    /// What it makes of an input of these bytes. It may let go of them before it takes memory for anything else.
    fn perform(&self, alloc: Global, bytes: Vec<u8>) -> Performed<Self::Outcome>
        requires { length bytes.items ≤ most self.now }
        ensures { Performs (refuses self.now) (reports self.now) bytes.items result };
}
