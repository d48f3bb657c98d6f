//! A program that refuses some inputs by their beginning.
ghost use Rattle.std.specs.Prelude.{◌≤◌, IfOk, length};
ghost use Rattle.call_rim.specs.Beginnings.{RefusesAll};

use crate::program::Program;
use rc_base::NoMemory;
use std::alloc::Global;

/// A program that has its whole input before it begins, but for inputs that it refuses by their beginning: of such an input the rest
/// is read and not held.
pub trait EarlyProgram: Program {
    /// The line that refuses every input that begins with these bytes and is not too large; None where what follows may decide.
    fn refuse_beginning(&self, alloc: Global, bytes: &[u8]) -> Result<Option<Vec<u8>>, NoMemory>
        requires { length bytes.now ≤ Self.most self.now }
        ensures { IfOk result (λ found. RefusesAll (Self.most self.now) (Self.refuses self.now) bytes.now found) };
}
