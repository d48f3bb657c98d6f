//! A reader of the system, whose failures and ends are counted.
//!
//! The kit's readers do not say how often they failed. So what no contract says is in the body of `read`: that it makes one call, and
//! tells and counts what came of it. (Tested by `text_tests`.)
ghost use Rattle.std.specs.Prelude.{◌≡◌, ◌+◌, ◌-◌, ◌^◌, ◌<◌, OnErr};
ghost use Rattle.std.specs.Io.{ReadsAtMost};
ghost use Rattle.std.specs.Io.KnownBytes.{ReadConsumes};
ghost use Rattle.rc_stream.specs.Causes.{HasCause};
ghost use Rattle.rc_stream.specs.Ends.{CountsEnds};

use crate::answers::counted;
use crate::calls::ends_with;
use crate::streams::Failed;
use std::io::Read;

/// A reader, how often it failed, and how often it met its end.
#[derive(Drop)]
pub(crate) struct CountedReader<R> {
    pub(crate) reader: R,
    pub(crate) failures: u64,
    pub(crate) ends: u64,
}

impl<R: Read> CountedReader<R> {
    /// Reads once.
    pub(crate) fn read(&mut self, into: &mut [u8]) -> Result<usize, Failed>
        requires { self.old.failures < 2 ^ 64 - 1 }
        ensures bound { ReadsAtMost result into.new }
        ensures bytes { ReadConsumes (R.remaining self.old.reader) (R.remaining self.new.reader) result into.new }
        ensures cause { HasCause self.old.failures self.new.failures result }
        ensures end { CountsEnds self.old.ends self.new.ends result into.new }
        ensures one_fault { OnErr result (self.new.failures ≡ self.old.failures + 1) }
    {
        let count = counted(self.reader.read(into), &mut self.failures)?;
        self.ends = ends_with(self.ends, count, into);
        Ok(count)
    }
}
