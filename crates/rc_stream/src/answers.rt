//! What the answers of readers and writers mean.
ghost use Rattle.std.specs.Prelude.{◌≡◌, ◌+◌, ◌-◌, ◌^◌, ◌<◌, ◌⊎◌, length, Ok, IfOk, OnOk, OnErr, IsErr};

use crate::streams::Failed;
use std::io;

/// The value of an answer; or a failure, and then one fault more.
pub(crate) fn counted<T, E: Drop>(answer: Result<T, E>, faults: &mut u64) -> Result<T, Failed>
    requires { faults.old < 2 ^ 64 - 1 }
    ensures value { IfOk answer (λ value. result ≡ Ok value) }
    ensures no_fault { OnOk answer (faults.new ≡ faults.old) }
    ensures failure { OnErr answer (IsErr result) }
    ensures one_fault { OnErr answer (faults.new ≡ faults.old + 1) }
{
    match answer {
        Ok(value) => Ok(value),
        Err(_) => {
            *faults += 1;
            Err(Failed)
        }
    }
}

/// How many bytes of a piece a writer took by its answer. None of some is a failure.
pub(crate) fn taken_of(piece: &[u8], answer: io::Result<usize>) -> Result<usize, Failed>
    ensures taken { IfOk answer (λ count. 0 < count ⊎ length piece.now ≡ 0 → result ≡ Ok count) }
    ensures nothing { IfOk answer (λ count. count ≡ 0 → 0 < length piece.now → IsErr result) }
    ensures failure { OnErr answer (IsErr result) }
{
    match answer {
        Ok(count) if count > 0 || piece.is_empty() => Ok(count),
        _ => Err(Failed),
    }
}
