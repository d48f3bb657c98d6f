//! The lines of a trace whose text comes in pieces.
ghost use Rattle.std.specs.Prelude.{◌≡◌, ◌+◌, ◌≤◌, ◌<◌, [], ◌∷◌, ◌++◌, length, false, true};
ghost use Rattle.way_curve.specs.Reading.{IsOpen, ReadsOn};
ghost use Rattle.way_curve.specs.declared.limits.TheConstants.{MOST_TRACE_BYTES};

use crate::limits::MOST_LINE_BYTES;
use crate::said::said_of_ended;
use crate::trace::Trace;

impl Trace {
    /// Takes bytes that end a line and its newline. A line of which no byte came before is read where it stands.
    pub(crate) fn take_ended(&mut self, line: &[u8])
        requires is_open { IsOpen line.now }
        requires room { self.old.bytes + (length line.now + 1) ≤ MOST_TRACE_BYTES }
        ensures bytes { self.new.bytes ≡ self.old.bytes + (length line.now + 1) }
        ensures line { ReadsOn self.old self.new (line.now ++ 10 ∷ []) }
    {
        if self.is_between_lines() {
            self.take_line(line);
        } else {
            self.take_bytes(line);
            self.take_byte(b'\n');
        }
    }

    // Whether each line so far was one of a trace, and no byte of the next has come.
    fn is_between_lines(&self) -> bool
        ensures good { result ≡ true → self.now.is_bad ≡ false }
        ensures none { result ≡ true → self.now.rest ≡ [] }
    {
        !self.is_bad && self.rest.is_empty()
    }

    // Takes a whole line and its newline, of which no byte came before.
    fn take_line(&mut self, line: &[u8])
        requires good { self.old.is_bad ≡ false }
        requires none { self.old.rest ≡ [] }
        requires is_open { IsOpen line.now }
        requires room { self.old.bytes + (length line.now + 1) ≤ MOST_TRACE_BYTES }
        ensures bytes { self.new.bytes ≡ self.old.bytes + (length line.now + 1) }
        ensures line { ReadsOn self.old self.new (line.now ++ 10 ∷ []) }
    {
        let said = said_of_ended(line);
        self.bytes += line.len() as u64 + 1;
        match said {
            Some(said) => {
                self.curves.note_line(&said);
                self.ended += 1;
            }
            None => self.is_bad = true,
        }
    }

    /// Takes bytes one by one.
    pub(crate) fn take_bytes(&mut self, bytes: &[u8])
        requires room { self.old.bytes + length bytes.now ≤ MOST_TRACE_BYTES }
        ensures bytes { self.new.bytes ≡ self.old.bytes + length bytes.now }
        ensures read { ReadsOn self.old self.new bytes.now }
    {
        for byte in bytes {
            self.take_byte(*byte);
        }
    }

    // Takes a byte.
    fn take_byte(&mut self, byte: u8)
        requires room { self.old.bytes < MOST_TRACE_BYTES }
        ensures bytes { self.new.bytes ≡ self.old.bytes + 1 }
        ensures byte { ReadsOn self.old self.new (byte ∷ []) }
    {
        if self.is_bad {
            self.bytes += 1;
        } else if byte == b'\n' {
            self.end_line();
        } else if self.rest.len() <= MOST_LINE_BYTES {
            self.bytes += 1;
            self.rest.push_reserved(byte);
        } else {
            self.bytes += 1;
            self.is_bad = true;
        }
    }

    // Takes a newline, which ends a line.
    fn end_line(&mut self)
        requires good { self.old.is_bad ≡ false }
        requires room { self.old.bytes < MOST_TRACE_BYTES }
        ensures bytes { self.new.bytes ≡ self.old.bytes + 1 }
        ensures newline { ReadsOn self.old self.new (10 ∷ []) }
    {
        let said = said_of_ended(&self.rest);
        self.bytes += 1;
        match said {
            Some(said) => {
                self.curves.note_line(&said);
                self.rest.clear();
                self.ended += 1;
            }
            None => self.is_bad = true,
        }
    }
}
