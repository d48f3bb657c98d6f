//! The traces of uses that stand between a line `trace` and a line `end`.
ghost use Rattle.std.specs.Prelude.{◌≡◌, length, map, OnOk};
ghost use Rattle.lackey_text.specs.Uses.{uses_left};
ghost use Rattle.line_words.specs.Lines.{words};
ghost use Rattle.pair_text.specs.PairLines.{is_end, means, trace_line, use_in, with_uses};
ghost use Rattle.pair_text.specs.Readers.{IsSound, Means, state_of};
ghost use Rattle.pair_text.specs.declared.kind.Kind.TheVariants as kinds;

use crate::fault::PairFault;
use crate::kind::{PairKind, Place};
use crate::reader::PairReader;
use crate::stop::{Stop, bad};
use lackey_text::{BadLine, LineUses, read_line};
use line_words::one_word;
use rc_base::is_text;
use script_lines::LineFault;
use script_lines::arguments::trace_args;
use script_lines::tasks::declared_task;

impl PairReader {
    /// `trace TASK CPU`
    #[tactic(auto, unfolding(crate::specs::PairLines::means))]
    pub fn trace(&mut self, kind: PairKind, text: &[u8]) -> Result<(), Stop>
        requires { IsSound (state_of self.old) }
        ensures said { Means result (state_of self.new) (means kind kinds.Trace (state_of self.old) text.now) }
        ensures sound { OnOk result (IsSound (state_of self.new)) }
    {
        let Some(used) = trace_args(&self.machine, text) else {
            return Err(bad(LineFault::BadArgument));
        };
        let Some(task) = declared_task(&self.tasks, used.task) else {
            return Err(bad(LineFault::UnknownTask));
        };
        self.place = Place::Trace {
            task,
            cpu: used.cpu,
        };
        Ok(())
    }

    // Adds the uses of a line of a trace.
    fn push_uses(&mut self, task: u32, cpu: u8, uses: LineUses) -> Result<(), Stop>
        requires sound { IsSound (state_of self.old) }
        ensures said { Means result (state_of self.new) (with_uses (state_of self.old) (length (uses_left uses)) (map (use_in task cpu) (uses_left uses))) }
        ensures sound { OnOk result (IsSound (state_of self.new)) }
    {
        for used in uses {
            match self.push_use(task, cpu, used) {
                Ok(()) => {}
                Err(stop) => return Err(stop),
            }
        }
        Ok(())
    }

    /// A line of a trace.
    #[tactic(auto, unfolding(crate::specs::PairLines::trace_line))]
    pub fn traced(&mut self, task: u32, cpu: u8, line: &[u8]) -> Result<(), Stop>
        requires { IsSound (state_of self.old) }
        ensures said { Means result (state_of self.new) (trace_line (state_of self.old) task cpu line.now) }
        ensures sound { OnOk result (IsSound (state_of self.new)) }
    {
        if is_end(line) {
            self.place = Place::Body;
            return Ok(());
        }
        match read_line(line) {
            Ok(said) => self.push_uses(task, cpu, said.uses()),
            Err(BadLine) => Err(Stop::Fault(PairFault::BadTrace)),
        }
    }
}

// Whether a line's only word is `end`.
fn is_end(line: &[u8]) -> bool
    ensures { result ≡ is_end (words line.now) }
{
    match one_word(line) {
        Some(word) => is_text(word, b"end"),
        None => false,
    }
}
