//! The sink over a writer, as standard output.
ghost use Rattle.std.specs.Prelude.{◌≡◌, ◌+◌, ◌-◌, ◌^◌, ◌<◌, IfOk, OnOk, OnErr, false, true};
ghost use Rattle.std.specs.Io.KnownBytes.{Keeps, WriteAppends};
ghost use Rattle.rc_stream.specs.Causes.{HasCause, TakesSome};

use crate::counted_writer::CountedWriter;
use crate::streams::{Failed, Sink};
use std::io::Write;

/// A sink over standard output, or another writer. Its faults are those that are counted of its writer (`CountedWriter`), and it has
/// taken what its writer has taken. Standard output itself tells no bytes.
#[derive(Drop)]
pub struct StdSink<W> {
    output: CountedWriter<W>,
    held: bool,
}

impl<W: Write> StdSink<W> {
    /// A sink over a writer, with no faults so far. The writer may hold bytes back from before.
    pub fn new(output: W) -> StdSink<W>
        ensures taken { ⟦<StdSink<W> as Sink>⟧.taken result ≡ W.contents output }
        ensures held { ⟦<StdSink<W> as Sink>⟧.held result ≡ true }
        ensures faults { ⟦<StdSink<W> as Sink>⟧.faults result ≡ 0 }
    {
        StdSink {
            output: CountedWriter {
                writer: output,
                failures: 0,
            },
            held: true,
        }
    }
}

impl<W: Write> Sink for StdSink<W> {
    ghost taken = { λ s. W.contents s.output.writer };

    ghost held = { λ s. s.held };

    ghost faults = { λ s. s.output.failures };

    fn write(&mut self, piece: &[u8]) -> Result<usize, Failed>
        requires { self.old.output.failures < 2 ^ 64 - 1 }
        ensures bound { TakesSome result piece.now }
        ensures bytes { WriteAppends (W.contents self.old.output.writer) (W.contents self.new.output.writer) result piece.now }
        ensures holds { IfOk result (λ n. 0 < n → self.new.held ≡ true) }
        ensures cause { HasCause self.old.output.failures self.new.output.failures result }

        ensures one_fault { OnErr result (self.new.output.failures ≡ self.old.output.failures + 1) }
    {
        self.held = true;
        self.output.write(piece)
    }

    fn flush(&mut self) -> Result<(), Failed>
        requires { self.old.output.failures < 2 ^ 64 - 1 }
        ensures bytes { Keeps (W.contents self.old.output.writer) (W.contents self.new.output.writer) }
        ensures none_held { OnOk result (self.new.held ≡ false) }
        ensures cause { HasCause self.old.output.failures self.new.output.failures result }

        ensures still_held { OnErr result (self.new.held ≡ self.old.held) }
        ensures one_fault { OnErr result (self.new.output.failures ≡ self.old.output.failures + 1) }
    {
        let flushed = self.output.flush();
        if flushed.is_ok() {
            self.held = false;
        }
        flushed
    }
}
