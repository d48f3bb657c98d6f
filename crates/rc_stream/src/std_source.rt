//! The source over a reader, as standard input.
ghost use Rattle.std.specs.Prelude.{◌≡◌, ◌+◌, ◌-◌, ◌^◌, ◌<◌, OnErr};
ghost use Rattle.std.specs.Io.{ReadsAtMost};
ghost use Rattle.std.specs.Io.KnownBytes.{ReadConsumes};
ghost use Rattle.rc_stream.specs.Causes.{HasCause};
ghost use Rattle.rc_stream.specs.Ends.{CountsEnds};

use crate::counted_reader::CountedReader;
use crate::streams::{Failed, Source};
use std::io::Read;

/// A source over standard input, or another reader. Its faults and ends are those that are counted of its reader (`CountedReader`), and
/// it has left what its reader has left. Standard input itself tells no bytes.
#[derive(Drop)]
pub struct StdSource<R> {
    input: CountedReader<R>,
}

impl<R: Read> StdSource<R> {
    /// A source over a reader, with no faults so far.
    pub fn new(input: R) -> StdSource<R>
        ensures left { ⟦<StdSource<R> as Source>⟧.left result ≡ R.remaining input }
        ensures faults { ⟦<StdSource<R> as Source>⟧.faults result ≡ 0 }
        ensures ends { ⟦<StdSource<R> as Source>⟧.ends result ≡ 0 }
    {
        StdSource {
            input: CountedReader {
                reader: input,
                failures: 0,
                ends: 0,
            },
        }
    }
}

impl<R: Read> Source for StdSource<R> {
    ghost left = { λ s. R.remaining s.input.reader };

    ghost faults = { λ s. s.input.failures };

    ghost ends = { λ s. s.input.ends };

    fn read(&mut self, into: &mut [u8]) -> Result<usize, Failed>
        requires { self.old.input.failures < 2 ^ 64 - 1 }
        ensures bound { ReadsAtMost result into.new }
        ensures bytes { ReadConsumes (R.remaining self.old.input.reader) (R.remaining self.new.input.reader) result into.new }
        ensures cause { HasCause self.old.input.failures self.new.input.failures result }
        ensures end { CountsEnds self.old.input.ends self.new.input.ends result into.new }

        ensures one_fault { OnErr result (self.new.input.failures ≡ self.old.input.failures + 1) }
    {
        self.input.read(into)
    }
}
