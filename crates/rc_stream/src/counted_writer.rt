//! A writer of the system, whose failures are counted.
//!
//! The kit's writers do not say how often they failed. So what no contract says is in the two bodies here: that each makes one call, and
//! tells and counts what came of it. (Tested by `text_tests`.)
ghost use Rattle.std.specs.Prelude.{◌≡◌, ◌+◌, ◌-◌, ◌^◌, ◌<◌, OnErr};
ghost use Rattle.std.specs.Io.KnownBytes.{Keeps, WriteAppends};
ghost use Rattle.rc_stream.specs.Causes.{HasCause, TakesSome};

use crate::answers::{counted, taken_of};
use crate::streams::Failed;
use std::io::Write;

/// A writer, and how often it failed. A write that takes nothing of some bytes is a failure.
#[derive(Drop)]
pub(crate) struct CountedWriter<W> {
    pub(crate) writer: W,
    pub(crate) failures: u64,
}

impl<W: Write> CountedWriter<W> {
    /// Writes once.
    pub(crate) fn write(&mut self, piece: &[u8]) -> Result<usize, Failed>
        requires { self.old.failures < 2 ^ 64 - 1 }
        ensures bound { TakesSome result piece.now }
        ensures bytes { WriteAppends (W.contents self.old.writer) (W.contents self.new.writer) result piece.now }
        ensures cause { HasCause self.old.failures self.new.failures result }
        ensures one_fault { OnErr result (self.new.failures ≡ self.old.failures + 1) }
    {
        let taken = taken_of(piece, self.writer.write(piece));
        counted(taken, &mut self.failures)
    }

    /// Flushes once.
    pub(crate) fn flush(&mut self) -> Result<(), Failed>
        requires { self.old.failures < 2 ^ 64 - 1 }
        ensures bytes { Keeps (W.contents self.old.writer) (W.contents self.new.writer) }
        ensures cause { HasCause self.old.failures self.new.failures result }
        ensures one_fault { OnErr result (self.new.failures ≡ self.old.failures + 1) }
    {
        counted(self.writer.flush(), &mut self.failures)
    }
}
