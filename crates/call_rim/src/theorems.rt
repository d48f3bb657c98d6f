//! The limit of a stream by its number, and the line for an input that is too large by its bytes.
ghost use Rattle.std.specs.Prelude.{◌≡◌, ◌^◌};
ghost use Rattle.call_rim.specs.Within.{too_large_line};
ghost use Rattle.call_rim.specs.declared.stream_program.TheConstants.{MOST_STREAM_BYTES};
ghost use Rattle.call_rim.specs.declared.within.TheConstants.{TOO_LARGE};

/// The limit is this number, and the line this text (this project's profile).
pub fn limits_are_stated()
    ensures stream { MOST_STREAM_BYTES ≡ 2 ^ 56 }
    ensures too_large { TOO_LARGE.now ≡ too_large_line }
{}
