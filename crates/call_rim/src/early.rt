//! What a program makes of an input that it may refuse by its beginning.
ghost use Rattle.std.specs.Prelude.{◌≡◌, ◌+◌, ◌-◌, ◌<◌, ◌≤◌, ◌^◌, List, ℕ, length, IfOk, Err, Option, Some, vec_len};
ghost use Rattle.std.specs.Io.KnownBytes.{Consumes};
ghost use Rattle.call_rim.specs.Beginnings.{IsMadeOf, RefusesAll};

use crate::early_program::EarlyProgram;
use crate::performed::Performed;
use crate::reading::{ReadError, pass_over, read_all, read_on};
use crate::within::{perform_within, refuse_size};
use rc_base::NoMemory;
use rc_stream::Source;
use std::alloc::Global;

// How many bytes of an input are looked at before the rest is read.
const BEGINNING: usize = 1_048_576;

// The refusal with this line of an input of which so many bytes were taken before. The rest is read, and not held.
fn refuse_rest<P: EarlyProgram, S: Source>(
    alloc: Global,
    program: &P,
    source: &mut S,
    taken: usize,
    line: Vec<u8>,
) -> Result<Performed<P::Outcome>, ReadError>
    requires faults { S.faults source.old < 2 ^ 64 - 1 }
    requires room { taken ≤ P.most program.now }
    ensures made { IfOk result (λ made. (start : Option (List ℕ)) (before : List ℕ) → length before ≡ taken → Consumes start (S.left source.old) before
        → RefusesAll (P.most program.now) (P.refuses program.now) before (Some line)
        → IsMadeOf (P.most program.now) (P.refuses program.now) (P.reports program.now) start (S.left source.new) made) }
    ensures faults { IfOk result (λ made. S.faults source.new ≡ S.faults source.old) }
    ensures failed { result ≡ Err ReadError.Failed → S.faults source.old < S.faults source.new }
    ensures memory { result ≡ Err ReadError.NoMemory → S.faults source.new ≡ S.faults source.old }
    ensures end { S.ends source.new ≤ S.ends source.old + 1 }
{
    let most = program.most_bytes();
    match pass_over(alloc, source, most + 1 - taken) {
        Ok(rest) => {
            if taken + rest > most {
                Ok(refuse_size(alloc, program))
            } else {
                Ok(Performed::Refused { line })
            }
        }
        Err(error) => Err(error),
    }
}

// What a program makes of an input that begins with these bytes, and is read on.
fn make_whole<P: EarlyProgram, S: Source>(
    alloc: Global,
    program: &P,
    source: &mut S,
    beginning: Vec<u8>,
) -> Result<Performed<P::Outcome>, ReadError>
    requires faults { S.faults source.old < 2 ^ 64 - 1 }
    requires room { length beginning.items ≤ P.most program.now }
    ensures made { IfOk result (λ made. (start : Option (List ℕ)) → Consumes start (S.left source.old) beginning.items
        → IsMadeOf (P.most program.now) (P.refuses program.now) (P.reports program.now) start (S.left source.new) made) }
    ensures faults { IfOk result (λ made. S.faults source.new ≡ S.faults source.old) }
    ensures failed { result ≡ Err ReadError.Failed → S.faults source.old < S.faults source.new }
    ensures memory { result ≡ Err ReadError.NoMemory → S.faults source.new ≡ S.faults source.old }
    ensures end { S.ends source.new ≤ S.ends source.old + 1 }
{
    let mut bytes = beginning;
    match read_on(alloc, source, &mut bytes, program.most_bytes()) {
        Ok(()) => Ok(perform_within(alloc, program, bytes)),
        Err(error) => Err(error),
    }
}

// What a program makes of an input that begins with these bytes. They are let go where they refuse it.
fn make_from<P: EarlyProgram, S: Source>(
    alloc: Global,
    program: &P,
    source: &mut S,
    beginning: Vec<u8>,
) -> Result<Performed<P::Outcome>, ReadError>
    requires faults { S.faults source.old < 2 ^ 64 - 1 }
    requires room { length beginning.items ≤ P.most program.now }
    ensures made { IfOk result (λ made. (start : Option (List ℕ)) → Consumes start (S.left source.old) beginning.items
        → IsMadeOf (P.most program.now) (P.refuses program.now) (P.reports program.now) start (S.left source.new) made) }
    ensures faults { IfOk result (λ made. S.faults source.new ≡ S.faults source.old) }
    ensures failed { result ≡ Err ReadError.Failed → S.faults source.old < S.faults source.new }
    ensures memory { result ≡ Err ReadError.NoMemory → S.faults source.new ≡ S.faults source.old }
    ensures end { S.ends source.new ≤ S.ends source.old + 1 }
{
    let taken = beginning.len();
    match program.refuse_beginning(alloc, &beginning) {
        Ok(Some(line)) => {
            drop(beginning);
            refuse_rest(alloc, program, source, taken, line)
        }
        Ok(None) => make_whole(alloc, program, source, beginning),
        Err(NoMemory) => Err(ReadError::NoMemory),
    }
}

/// What a program makes of all that a source has left. Where its first 2^20 bytes refuse it, they are let go of before the rest is
/// read.
pub(crate) fn make_early<P: EarlyProgram, S: Source>(
    alloc: Global,
    program: &P,
    source: &mut S,
) -> Result<Performed<P::Outcome>, ReadError>
    requires faults { S.faults source.old < 2 ^ 64 - 1 }
    requires large { 2 ^ 20 ≤ P.most program.now }
    ensures made { IfOk result (λ made. IsMadeOf (P.most program.now) (P.refuses program.now) (P.reports program.now) (S.left source.old) (S.left source.new) made) }
    ensures faults { IfOk result (λ made. S.faults source.new ≡ S.faults source.old) }
    ensures failed { result ≡ Err ReadError.Failed → S.faults source.old < S.faults source.new }
    ensures memory { result ≡ Err ReadError.NoMemory → S.faults source.new ≡ S.faults source.old }
    ensures end { S.ends source.new ≤ S.ends source.old + 1 }
{
    let bytes = match read_all(alloc, source, BEGINNING - 1) {
        Ok(bytes) => bytes,
        Err(error) => return Err(error),
    };
    if bytes.len() < BEGINNING {
        Ok(perform_within(alloc, program, bytes))
    } else {
        make_from(alloc, program, source, bytes)
    }
}
