//! The lines that give a script its machines and its tasks.
ghost use Rattle.std.specs.Prelude.{OnOk};
ghost use Rattle.pair_text.specs.PairLines.{means};
ghost use Rattle.pair_text.specs.Readers.{IsSound, Means, state_of};
ghost use Rattle.pair_text.specs.declared.kind.Kind.TheVariants as kinds;

use crate::kind::{PairKind, Place};
use crate::pair_keys::machines_args;
use crate::reader::PairReader;
use crate::stop::{Stop, bad, stopped};
use script_lines::LineFault;
use script_lines::tasks::{declare, is_too_many};

impl PairReader {
    /// `machine KEY=VALUE ...`
    #[tactic(auto, unfolding(crate::specs::PairLines::means))]
    pub fn machine(&mut self, kind: PairKind, text: &[u8]) -> Result<(), Stop>
        requires { IsSound (state_of self.old) }
        ensures said { Means result (state_of self.new) (means kind kinds.Machine (state_of self.old) text.now) }
        ensures sound { OnOk result (IsSound (state_of self.new)) }
    {
        let Some((machine, l2)) = machines_args(kind, text) else {
            return Err(bad(LineFault::BadMachine));
        };
        self.machine = machine;
        self.l2 = l2;
        self.place = Place::Head;
        Ok(())
    }

    /// `tasks WORD ...`
    #[tactic(auto, unfolding(crate::specs::PairLines::means))]
    pub fn tasks(&mut self, kind: PairKind, text: &[u8]) -> Result<(), Stop>
        requires { IsSound (state_of self.old) }
        ensures said { Means result (state_of self.new) (means kind kinds.Tasks (state_of self.old) text.now) }
        ensures sound { OnOk result (IsSound (state_of self.new)) }
    {
        match declare(&mut self.tasks, text) {
            Ok(()) => {}
            Err(error) => return Err(stopped(error)),
        }
        if is_too_many(&self.tasks) {
            return Err(bad(LineFault::TooLarge));
        }
        self.place = Place::Body;
        Ok(())
    }
}
