//! The outside as the program sees it: which bytes are left, which were taken, and how often a call failed.
ghost use Rattle.std.specs.Prelude.{◌≡◌, ◌-◌, ◌^◌, ◌<◌, Bool, List, ℕ, IfOk, OnOk, false, true};
ghost use Rattle.std.specs.declared.option.Option.{Option};
ghost use Rattle.std.specs.Io.{ReadsAtMost};
ghost use Rattle.std.specs.Io.KnownBytes.{ReadConsumes, WriteAppends, Keeps};
ghost use Rattle.rc_stream.specs.Causes.{HasCause, TakesSome};
ghost use Rattle.rc_stream.specs.Ends.{CountsEnds};

/// The outside failed, and the count of faults has risen.
#[derive(Clone, Copy, Debug, PartialEq, Eq)]
pub struct Failed;

/// Bytes to be read.
pub trait Source {
    /// The bytes still to come, where the source tells them.
    ghost left: { Self → Option (List ℕ) };

    /// How often a call has failed. It never falls.
    ghost faults: { Self → ℕ };

    /// How often a read met the end. It stands still at 2^64 - 1.
    ghost ends: { Self → ℕ };

    /// Takes the next bytes into the front of `into`, and says how many. None into room for some is the end.
    fn read(&mut self, into: &mut [u8]) -> Result<usize, Failed>
        requires { faults self.old < 2 ^ 64 - 1 }
        ensures bound { ReadsAtMost result into.new }
        ensures bytes { ReadConsumes (left self.old) (left self.new) result into.new }
        ensures cause { HasCause (faults self.old) (faults self.new) result }
        ensures end { CountsEnds (ends self.old) (ends self.new) result into.new };
}

/// A place for bytes.
pub trait Sink {
    /// The bytes that were taken, where the sink tells them.
    ghost taken: { Self → Option (List ℕ) };

    /// Whether bytes that were taken may be held back, for want of a flush.
    ghost held: { Self → Bool };

    /// How often a call has failed. It never falls.
    ghost faults: { Self → ℕ };

    /// Takes bytes from the front of `piece`, and says how many: at least one of a piece that is not empty. They may be held
    /// back until the next flush.
    fn write(&mut self, piece: &[u8]) -> Result<usize, Failed>
        requires { faults self.old < 2 ^ 64 - 1 }
        ensures bound { TakesSome result piece.now }
        ensures bytes { WriteAppends (taken self.old) (taken self.new) result piece.now }
        ensures holds { IfOk result (λ n. 0 < n → held self.new ≡ true) }
        ensures cause { HasCause (faults self.old) (faults self.new) result };

    /// Hands on all that was taken.
    fn flush(&mut self) -> Result<(), Failed>
        requires { faults self.old < 2 ^ 64 - 1 }
        ensures bytes { Keeps (taken self.old) (taken self.new) }
        ensures none_held { OnOk result (held self.new ≡ false) }
        ensures cause { HasCause (faults self.old) (faults self.new) result };
}
