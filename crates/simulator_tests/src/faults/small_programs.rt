//! Three small programs: one has its whole input before it begins, one refuses some inputs by their beginning, and one takes its
//! input piece by piece.

use call_rim::{EarlyProgram, Performed, Program, StreamProgram, Taken};
use rc_base::NoMemory;
use std::alloc::Global;

/// Reports the bytes of its input as they are, three at most, and finds how many they are.
pub(crate) struct Echo;

impl Program for Echo {
    ghost use Rattle.std.specs.Prelude.{◌≡◌, length};

    type Outcome = usize;

    ghost most = { λ p. 3 };

    ghost refuses = { λ p bytes line. ⊥ };

    ghost reports = { λ p bytes count text. (count ≡ length bytes) × (text ≡ bytes) };

    fn most_bytes(&self) -> usize {
        3
    }

    fn perform(&self, _alloc: Global, bytes: Vec<u8>) -> Performed<usize> {
        Performed::Reported {
            outcome: bytes.len(),
            report: bytes,
        }
    }
}

/// Counts the bytes of its input, 1,048,579 at most, and refuses one with an exclamation mark.
pub(crate) struct Unmarked;

impl Program for Unmarked {
    ghost use Rattle.std.specs.Prelude.{◌≡◌, length, Contains};

    type Outcome = usize;

    ghost most = { λ p. 1048579 };

    ghost refuses = { λ p bytes line. Contains bytes 33 };

    ghost reports = { λ p bytes count text. count ≡ length bytes };

    fn most_bytes(&self) -> usize {
        1_048_579
    }

    fn perform(&self, alloc: Global, bytes: Vec<u8>) -> Performed<usize> {
        let outcome = bytes.len();
        match self.refuse_beginning(alloc, &bytes) {
            Ok(Some(line)) => return Performed::Refused { line },
            Ok(None) => {}
            Err(NoMemory) => return Performed::NoMemory,
        }
        match Vec::from_slice(alloc, b"counted\n") {
            Ok(report) => Performed::Reported { outcome, report },
            Err(_) => Performed::NoMemory,
        }
    }
}

impl EarlyProgram for Unmarked {
    fn refuse_beginning(&self, alloc: Global, bytes: &[u8]) -> Result<Option<Vec<u8>>, NoMemory> {
        if !bytes.contains(&b'!') {
            return Ok(None);
        }
        let line = Vec::from_slice(alloc, b"marked\n")?;
        Ok(Some(line))
    }
}

/// Counts the bytes of its input, and refuses more than seven.
pub(crate) struct Count;

impl StreamProgram for Count {
    ghost use Rattle.std.specs.Prelude.{◌≡◌, ◌≤◌, ◌<◌, length};

    type State = u64;

    type Outcome = u64;

    ghost has_taken = { λ p state bytes. state ≡ length bytes };

    ghost good_so_far = { λ p bytes. length bytes ≤ 7 };

    ghost count = { λ p state. state };

    ghost refuses = { λ p bytes line. 7 < length bytes };

    ghost reports = { λ p bytes count text. count ≡ length bytes };

    fn begin(&self, _alloc: Global) -> Result<u64, NoMemory> {
        Ok(0)
    }

    fn take(&self, alloc: Global, state: &mut u64, piece: &[u8]) -> Taken {
        *state += piece.len() as u64;
        if *state <= 7 {
            return Taken::More;
        }
        match Vec::from_slice(alloc, b"more than seven\n") {
            Ok(line) => Taken::Refused { line },
            Err(_) => Taken::NoMemory,
        }
    }

    fn finish(&self, alloc: Global, state: u64) -> Performed<u64> {
        match Vec::from_slice(alloc, b"counted\n") {
            Ok(report) => Performed::Reported {
                outcome: state,
                report,
            },
            Err(_) => Performed::NoMemory,
        }
    }
}
