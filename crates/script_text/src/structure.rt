//! The lines that give a script its parts.
ghost use Rattle.std.specs.Prelude.{OnOk};
ghost use Rattle.script_text.specs.States.{state_of, IsSound};
ghost use Rattle.script_text.specs.Meaning.{means, Means};
ghost use Rattle.script_text.specs.declared.kind.Kind.TheVariants as kinds;

use crate::kind::LinePosition;
use crate::orders::read_order;
use crate::reader::Reader;
use line_words::no_word;
use script_lines::machine_line::machine_args;
use script_lines::tasks::{declare, is_too_many};
use script_lines::{LineError, LineFault};
use script_ops::{MOST_ORDER, MOST_PHASE_THREADS, MOST_PHASES};

impl Reader {
    /// `machine KEY=VALUE ...`
    #[tactic(auto, unfolding(crate::specs::Meaning::means))]
    pub fn machine(&mut self, text: &[u8]) -> Result<(), LineError>
        requires { IsSound (state_of self.old) }
        ensures said { Means result (state_of self.new) (means kinds.Machine (state_of self.old) text.now) }
        ensures sound { OnOk result (IsSound (state_of self.new)) }
    {
        let Some(machine) = machine_args(text) else {
            return Err(LineError::Fault(LineFault::BadMachine));
        };
        self.machine = machine;
        self.place = LinePosition::Head;
        Ok(())
    }

    /// `tasks WORD ...`
    #[tactic(auto, unfolding(crate::specs::Meaning::means))]
    pub fn tasks(&mut self, text: &[u8]) -> Result<(), LineError>
        requires { IsSound (state_of self.old) }
        ensures said { Means result (state_of self.new) (means kinds.Tasks (state_of self.old) text.now) }
        ensures sound { OnOk result (IsSound (state_of self.new)) }
    {
        match declare(&mut self.tasks, text) {
            Ok(()) => {}
            Err(error) => return Err(error),
        }
        if is_too_many(&self.tasks) {
            return Err(LineError::Fault(LineFault::TooLarge));
        }
        Ok(())
    }

    /// `phase`
    #[tactic(auto, unfolding(crate::specs::Meaning::means))]
    pub fn phase(&mut self, text: &[u8]) -> Result<(), LineError>
        requires { IsSound (state_of self.old) }
        ensures said { Means result (state_of self.new) (means kinds.Phase (state_of self.old) text.now) }
        ensures sound { OnOk result (IsSound (state_of self.new)) }
    {
        if !no_word(text) {
            return Err(LineError::Fault(LineFault::BadArgument));
        }
        match self.close_phase() {
            Ok(()) => {}
            Err(error) => return Err(error),
        }
        if self.phases.len() >= MOST_PHASES {
            return Err(LineError::Fault(LineFault::TooLarge));
        }
        self.place = LinePosition::Opened;
        Ok(())
    }

    /// `order DEC ...`
    #[tactic(auto, unfolding(crate::specs::Meaning::means))]
    pub fn order(&mut self, text: &[u8]) -> Result<(), LineError>
        requires { IsSound (state_of self.old) }
        ensures said { Means result (state_of self.new) (means kinds.Order (state_of self.old) text.now) }
        ensures sound { OnOk result (IsSound (state_of self.new)) }
    {
        let mut order = Vec::new(self.alloc);
        match read_order(&mut order, text) {
            Ok(()) => {}
            Err(error) => return Err(error),
        }
        if order.len() > MOST_ORDER {
            return Err(LineError::Fault(LineFault::TooLarge));
        }
        self.order = order;
        self.place = LinePosition::Ordered;
        Ok(())
    }

    /// `thread`
    #[tactic(auto, unfolding(crate::specs::Meaning::means))]
    pub fn thread(&mut self, text: &[u8]) -> Result<(), LineError>
        requires { IsSound (state_of self.old) }
        ensures said { Means result (state_of self.new) (means kinds.Thread (state_of self.old) text.now) }
        ensures sound { OnOk result (IsSound (state_of self.new)) }
    {
        if !no_word(text) {
            return Err(LineError::Fault(LineFault::BadArgument));
        }
        match self.close_thread() {
            Ok(()) => {}
            Err(error) => return Err(error),
        }
        if self.threads.len() >= MOST_PHASE_THREADS {
            return Err(LineError::Fault(LineFault::TooLarge));
        }
        self.place = LinePosition::Thread;
        Ok(())
    }
}
