//! The limits of a stream.

/// The most bytes of a stream, 2^42 (this project's profile): so the count of its uses, 65 a byte at most, times a weight fits 64 bits.
pub const MOST_STREAM_BYTES: u64 = 4_398_046_511_104;
