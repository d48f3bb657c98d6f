//! Reads a source to its end.
ghost use Rattle.std.specs.Prelude.{◌≡◌, ◌+◌, ◌-◌, ◌<◌, ◌≤◌, ◌^◌, List, ℕ, length, IfOk, OnOk, Option, Err, vec_len};
ghost use Rattle.std.specs.Io.KnownBytes.{Consumes, IsAtEnd};
ghost use Rattle.call_rim.specs.Beginnings.{Passes};
ghost use Rattle.call_rim.specs.Outside.{IsInput};

use rc_base::NoMemory;
use rc_stream::{Failed, Source};
use std::alloc::Global;

/// Why a source was not read to its end.
#[derive(Clone, Copy, Debug, PartialEq, Eq)]
pub enum ReadError {
    /// The source failed.
    Failed,
    /// Out of memory.
    NoMemory,
}

/// How many bytes are read at once at most.
pub(crate) const PIECE: usize = 65_536;

// Reads once into a piece, and adds what came to the bytes.
fn read_piece<S: Source>(
    source: &mut S,
    piece: &mut [u8],
    bytes: &mut Vec<u8>,
) -> Result<usize, ReadError>
    requires { S.faults source.old < 2 ^ 64 - 1 }
    ensures bytes { IfOk result (λ n. (start : Option (List ℕ)) → Consumes start (S.left source.old) bytes.old.items → Consumes start (S.left source.new) bytes.new.items) }
    ensures count { IfOk result (λ n. (n ≤ length piece.old) × (vec_len bytes.new ≡ vec_len bytes.old + n)) }
    ensures end { IfOk result (λ n. n ≡ 0 → 0 < length piece.old → IsAtEnd (S.left source.new)) }
    ensures faults { IfOk result (λ n. S.faults source.new ≡ S.faults source.old) }
    ensures failed { result ≡ Err ReadError.Failed → S.faults source.old < S.faults source.new }
    ensures memory { result ≡ Err ReadError.NoMemory → S.faults source.new ≡ S.faults source.old }
    ensures ends { S.ends source.new ≤ S.ends source.old + 1 }
    ensures goes_on { IfOk result (λ n. 0 < n → S.ends source.new ≡ S.ends source.old) }
{
    match source.read(piece) {
        Ok(count) => match bytes.extend_from_slice(&piece[..count]) {
            Ok(()) => Ok(count),
            Err(_) => Err(ReadError::NoMemory),
        },
        Err(Failed) => Err(ReadError::Failed),
    }
}

/// Room for one piece.
pub(crate) fn room_for_a_piece(alloc: Global) -> Result<Vec<u8>, NoMemory>
    ensures { IfOk result (λ buffer. vec_len buffer ≡ 65536) }
{
    let buffer = vec![in alloc; 0u8; PIECE]?;
    Ok(buffer)
}

/// Reads on to the end of a source, or to one byte more than the most, and adds what comes to the bytes.
pub(crate) fn read_on<S: Source>(
    alloc: Global,
    source: &mut S,
    bytes: &mut Vec<u8>,
    most: usize,
) -> Result<(), ReadError>
    requires faults { S.faults source.old < 2 ^ 64 - 1 }
    requires most { most < 2 ^ 62 }
    requires room { vec_len bytes.old ≤ most + 1 }
    ensures bytes { OnOk result ((start : Option (List ℕ)) → Consumes start (S.left source.old) bytes.old.items → IsInput most start bytes.new.items) }
    ensures taken { OnOk result ((start : Option (List ℕ)) → Consumes start (S.left source.old) bytes.old.items → Consumes start (S.left source.new) bytes.new.items) }
    ensures room { OnOk result (vec_len bytes.new ≤ most + 1) }
    ensures faults { OnOk result (S.faults source.new ≡ S.faults source.old) }
    ensures failed { result ≡ Err ReadError.Failed → S.faults source.old < S.faults source.new }
    ensures memory { result ≡ Err ReadError.NoMemory → S.faults source.new ≡ S.faults source.old }
    ensures end { S.ends source.new ≤ S.ends source.old + 1 }
    ensures goes_on { OnOk result (most < vec_len bytes.new → S.ends source.new ≡ S.ends source.old) }
{
    let Ok(mut buffer) = room_for_a_piece(alloc) else {
        return Err(ReadError::NoMemory);
    };
    'pieces: while bytes.len() <= most {
        let room = PIECE.min(most + 1 - bytes.len());
        match read_piece(source, &mut buffer[..room], bytes) {
            Ok(0) => return Ok(()),
            Ok(_) => {}
            Err(error) => return Err(error),
        }
    }
    Ok(())
}

/// The bytes of a source up to its end, cut off after one more than the most. `call` reads so; it is also for a top call whose program
/// starts threads, which the method of a trait cannot. The end is met once at most: after it the source is not read again.
pub fn read_all<S: Source>(alloc: Global, source: &mut S, most: usize) -> Result<Vec<u8>, ReadError>
    requires faults { S.faults source.old < 2 ^ 64 - 1 }
    requires most { most < 2 ^ 62 }
    ensures bytes { IfOk result (λ bytes. IsInput most (S.left source.old) bytes.items) }
    ensures taken { IfOk result
        (λ bytes. Consumes (S.left source.old) (S.left source.new) bytes.items) }
    ensures room { IfOk result (λ bytes. vec_len bytes ≤ most + 1) }
    ensures faults { IfOk result (λ bytes. S.faults source.new ≡ S.faults source.old) }
    ensures failed { result ≡ Err ReadError.Failed → S.faults source.old < S.faults source.new }
    ensures memory { result ≡ Err ReadError.NoMemory → S.faults source.new ≡ S.faults source.old }
    ensures end { S.ends source.new ≤ S.ends source.old + 1 }
    ensures goes_on { IfOk result (λ bytes. most < vec_len bytes → S.ends source.new ≡ S.ends source.old) }
{
    let mut bytes = Vec::new(alloc);
    match read_on(alloc, source, &mut bytes, most) {
        Ok(()) => Ok(bytes),
        Err(error) => Err(error),
    }
}

/// Reads on to the end of a source, or until so many bytes were taken, and lets go of them: how many they are.
pub(crate) fn pass_over<S: Source>(
    alloc: Global,
    source: &mut S,
    most: usize,
) -> Result<usize, ReadError>
    requires { S.faults source.old < 2 ^ 64 - 1 }
    ensures passed { IfOk result (λ n. Passes (S.left source.old) (S.left source.new) n) }
    ensures within { IfOk result (λ n. n ≤ most) }
    ensures ended { IfOk result (λ n. n < most → IsAtEnd (S.left source.new)) }
    ensures faults { IfOk result (λ n. S.faults source.new ≡ S.faults source.old) }
    ensures failed { result ≡ Err ReadError.Failed → S.faults source.old < S.faults source.new }
    ensures memory { result ≡ Err ReadError.NoMemory → S.faults source.new ≡ S.faults source.old }
    ensures end { S.ends source.new ≤ S.ends source.old + 1 }
{
    let Ok(mut buffer) = room_for_a_piece(alloc) else {
        return Err(ReadError::NoMemory);
    };
    let mut passed = 0;
    'pieces: while passed < most {
        let room = PIECE.min(most - passed);
        match source.read(&mut buffer[..room]) {
            Ok(0) => return Ok(passed),
            Ok(count) => passed += count,
            Err(Failed) => return Err(ReadError::Failed),
        }
    }
    Ok(passed)
}
