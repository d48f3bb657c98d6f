//! What a line says.
ghost use Rattle.std.specs.Prelude.{OnOk};
ghost use Rattle.pair_text.specs.PairLines.{line_meaning, means, plain_line, said_by, word_means};
ghost use Rattle.pair_text.specs.PairReading.{TakesLine};
ghost use Rattle.pair_text.specs.Readers.{IsSound, Means, state_of};
ghost use Rattle.line_words.specs.Lines.{behind_word, words};

use crate::kind::{Kind, PairKind, Place};
use crate::kind_names::{kind_named, may_stand};
use crate::reader::PairReader;
use crate::stop::{Stop, bad};
use line_words::{has_bad_byte, is_comment, next_word};
use rc_base::is_text;
use script_lines::LineFault;
use script_ops::next_line;

impl PairReader {
    // What stands after the first word of a line of this kind.
    fn arguments(&mut self, kind: PairKind, line: Kind, text: &[u8]) -> Result<(), Stop>
        requires { IsSound (state_of self.old) }
        ensures said { Means result (state_of self.new) (means kind line (state_of self.old) text.now) }
        ensures sound { OnOk result (IsSound (state_of self.new)) }
    {
        match line {
            Kind::Machine => self.machine(kind, text),
            Kind::Tasks => self.tasks(kind, text),
            Kind::Mkdir => self.mkdir(kind, text),
            Kind::Rmdir => self.rmdir(kind, text),
            Kind::Write => self.write(kind, text),
            Kind::Read => self.read(kind, text),
            Kind::Flush => self.flush(kind, text),
            Kind::Trace => self.trace(kind, text),
            Kind::Access => self.access(kind, text),
            Kind::Sweep => self.sweep(kind, text),
        }
    }

    // The words of a line that is no comment.
    #[tactic(auto, unfolding(crate::specs::PairLines::word_means))]
    fn says(&mut self, kind: PairKind, text: &[u8]) -> Result<(), Stop>
        requires { IsSound (state_of self.old) }
        ensures said { Means result (state_of self.new) (said_by kind (state_of self.old) (words text.now) (behind_word text.now)) }
        ensures sound { OnOk result (IsSound (state_of self.new)) }
    {
        let Some((word, rest)) = next_word(text) else {
            return Ok(());
        };
        if self.place == Place::Start && !is_text(word, b"machine") {
            return Err(bad(LineFault::NoMachine));
        }
        let Some(line) = kind_named(kind, word) else {
            return Err(bad(LineFault::UnknownWord));
        };
        if !may_stand(line, self.place) {
            return Err(bad(LineFault::OutOfPlace));
        }
        self.arguments(kind, line, rest)
    }

    // A line outside a trace.
    fn plain(&mut self, kind: PairKind, text: &[u8]) -> Result<(), Stop>
        requires { IsSound (state_of self.old) }
        ensures said { Means result (state_of self.new) (plain_line kind (state_of self.old) text.now) }
        ensures sound { OnOk result (IsSound (state_of self.new)) }
    {
        if is_comment(text) {
            return Ok(());
        }
        self.says(kind, text)
    }

    // Takes in a line.
    #[tactic(auto, unfolding(crate::specs::PairLines::line_meaning))]
    fn line(&mut self, kind: PairKind, text: &[u8]) -> Result<(), Stop>
        requires { IsSound (state_of self.old) }
        ensures said { Means result (state_of self.new) (line_meaning kind (state_of self.old) text.now) }
        ensures sound { OnOk result (IsSound (state_of self.new)) }
    {
        if has_bad_byte(text) {
            return Err(bad(LineFault::BadByte));
        }
        match self.place {
            Place::Trace { task, cpu } => self.traced(task, cpu, text),
            Place::Start | Place::Head | Place::Body => self.plain(kind, text),
        }
    }

    /// Takes in the first line of a text, and returns what stands after it; None where there is no line.
    pub fn take_line<'a>(
        &mut self,
        kind: PairKind,
        text: &'a [u8],
    ) -> Result<Option<&'a [u8]>, Stop>
        requires { IsSound (state_of self.old) }
        ensures said { TakesLine kind result (state_of self.old) (state_of self.new) text.now }
        ensures sound { OnOk result (IsSound (state_of self.new)) }
    {
        let Some((line, rest)) = next_line(text) else {
            return Ok(None);
        };
        match self.line(kind, line) {
            Ok(()) => Ok(Some(rest)),
            Err(stop) => Err(stop),
        }
    }
}
