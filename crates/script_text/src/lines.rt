//! What a line says.
ghost use Rattle.std.specs.Prelude.{OnOk};
ghost use Rattle.script_text.specs.States.{state_of, IsSound};
ghost use Rattle.script_text.specs.Meaning.{means, word_means, says, line_meaning, Means};
ghost use Rattle.script_text.specs.Usual.{use_by, access_means, TakesLine, TakesUsual};

use crate::kind::{Kind, LinePosition, kind_named, may_stand};
use crate::reader::Reader;
use crate::usual::{usual_access, usual_use};
use line_words::{has_bad_byte, is_comment, next_word};
use rc_base::is_text;
use script_lines::{LineError, LineFault};
use script_ops::next_line;

impl Reader {
    // What stands after the first word of a line of this kind.
    fn arguments(&mut self, kind: Kind, text: &[u8]) -> Result<(), LineError>
        requires { IsSound (state_of self.old) }
        ensures said { Means result (state_of self.new) (means kind (state_of self.old) text.now) }
        ensures sound { OnOk result (IsSound (state_of self.new)) }
    {
        match kind {
            Kind::Machine => self.machine(text),
            Kind::Tasks => self.tasks(text),
            Kind::Phase => self.phase(text),
            Kind::Order => self.order(text),
            Kind::Thread => self.thread(text),
            Kind::Mkdir => self.mkdir(text),
            Kind::Rmdir => self.rmdir(text),
            Kind::Write => self.write(text),
            Kind::Read => self.read(text),
            Kind::List => self.list(text),
            Kind::Flush => self.flush(text),
            Kind::Tick => self.tick(text),
            Kind::Clflush => self.clflush(text),
            Kind::Access => self.access(text),
            Kind::Sweep => self.sweep(text),
            Kind::Touch => self.touch(text),
        }
    }

    // The words of a line that is no comment.
    #[tactic(auto, unfolding(crate::specs::Meaning::word_means))]
    fn says(&mut self, text: &[u8]) -> Result<(), LineError>
        requires { IsSound (state_of self.old) }
        ensures said { Means result (state_of self.new) (says (state_of self.old) text.now) }
        ensures sound { OnOk result (IsSound (state_of self.new)) }
    {
        let Some((word, rest)) = next_word(text) else {
            return Ok(());
        };
        if self.place == LinePosition::Start && !is_text(word, b"machine") {
            return Err(LineError::Fault(LineFault::NoMachine));
        }
        let Some(kind) = kind_named(word) else {
            return Err(LineError::Fault(LineFault::UnknownWord));
        };
        if !may_stand(kind, self.place) {
            return Err(LineError::Fault(LineFault::OutOfPlace));
        }
        self.arguments(kind, rest)
    }

    // Takes in a line.
    #[tactic(auto, unfolding(crate::specs::Meaning::line_meaning))]
    fn line(&mut self, text: &[u8]) -> Result<(), LineError>
        requires { IsSound (state_of self.old) }
        ensures said { Means result (state_of self.new) (line_meaning (state_of self.old) text.now) }
        ensures sound { OnOk result (IsSound (state_of self.new)) }
    {
        if has_bad_byte(text) {
            return Err(LineError::Fault(LineFault::BadByte));
        }
        if is_comment(text) {
            return Ok(());
        }
        self.says(text)
    }

    // Takes in an access line of these numbers, after which this stands.
    fn usual_line<'a>(
        &mut self,
        task: u64,
        cpu: u64,
        addr: u64,
        rest: &'a [u8],
    ) -> Result<Option<&'a [u8]>, LineError>
        requires { IsSound (state_of self.old) }
        ensures said { TakesUsual result (state_of self.new) rest.now (access_means (state_of self.old) (use_by (state_of self.old).machine task cpu addr)) }
        ensures sound { OnOk result (IsSound (state_of self.new)) }
    {
        let used = usual_use(&self.machine, task, cpu, addr);
        match self.push_access(used) {
            Ok(()) => Ok(Some(rest)),
            Err(error) => Err(error),
        }
    }

    // Takes in the first line of a text, whatever it is.
    fn any_line<'a>(&mut self, text: &'a [u8]) -> Result<Option<&'a [u8]>, LineError>
        requires { IsSound (state_of self.old) }
        ensures said { TakesLine result (state_of self.old) (state_of self.new) text.now }
        ensures sound { OnOk result (IsSound (state_of self.new)) }
    {
        let Some((line, rest)) = next_line(text) else {
            return Ok(None);
        };
        match self.line(line) {
            Ok(()) => Ok(Some(rest)),
            Err(error) => Err(error),
        }
    }

    /// Takes in the first line of a text, and returns what stands after it; None where there is no line.
    #[inline(always)]
    pub fn take_line<'a>(&mut self, text: &'a [u8]) -> Result<Option<&'a [u8]>, LineError>
        requires { IsSound (state_of self.old) }
        ensures said { TakesLine result (state_of self.old) (state_of self.new) text.now }
        ensures sound { OnOk result (IsSound (state_of self.new)) }
    {
        if self.place == LinePosition::Thread {
            if let Some((task, cpu, addr, rest)) = usual_access(text) {
                return self.usual_line(task, cpu, addr, rest);
            }
        }
        self.any_line(text)
    }
}
