//! The lines that are commands.
ghost use Rattle.std.specs.Prelude.{IfOk, length, OnOk};
ghost use Rattle.script_text.specs.States.{state_of, InLimits, IsSound};
ghost use Rattle.path_names.specs.NamesIn.{path_ids, AreKnown};
ghost use Rattle.script_text.specs.Meaning.{means, Means, FindsAlone, path_alone, drop_line, drop_region};
ghost use Rattle.script_text.specs.declared.kind.Kind.TheVariants as kinds;
ghost use Rattle.path_names.specs.declared.paths.TheConstants.{MOST_PATH_NAMES};

use crate::reader::Reader;
use line_words::{next_word, no_word, one_word};
use path_names::PathRef;
use script_lines::arguments::{drop_line_args, drop_region_args, flush_args, has_path};
use script_lines::escapes::{behind_one, unescape};
use script_lines::paths::find_path;
use script_lines::{LineError, LineFault};
use script_ops::{MOST_TEXT_BYTES, Op};

impl Reader {
    // What the line's only argument names.
    #[tactic(auto, unfolding(crate::specs::Meaning::path_alone), using(crate::proofs::Limits::keeping))]
    fn path_alone(&mut self, text: &[u8]) -> Result<PathRef, LineError>
        requires { IsSound (state_of self.old) }
        ensures said { FindsAlone result (state_of self.old) (state_of self.new) (path_alone (state_of self.old) text.now) }
        ensures limits { OnOk result (InLimits 1 1 MOST_PATH_NAMES (state_of self.new)) }
        ensures known { IfOk result (λ path. AreKnown (length self.new.names) (path_ids path)) }
    {
        let Some(word) = one_word(text) else {
            return Err(LineError::Fault(LineFault::BadArgument));
        };
        match find_path(word, self.machine.domains, &mut self.names) {
            Ok(Some(path)) => Ok(path),
            Ok(None) => Err(LineError::Fault(LineFault::TooLarge)),
            Err(error) => Err(error),
        }
    }

    /// `mkdir PATH`
    #[tactic(auto, unfolding(crate::specs::Meaning::means))]
    pub fn mkdir(&mut self, text: &[u8]) -> Result<(), LineError>
        requires { IsSound (state_of self.old) }
        ensures said { Means result (state_of self.new) (means kinds.Mkdir (state_of self.old) text.now) }
        ensures sound { OnOk result (IsSound (state_of self.new)) }
    {
        match self.path_alone(text) {
            Ok(path) => self.push(Op::Mkdir { path }),
            Err(error) => Err(error),
        }
    }

    /// `rmdir PATH`
    #[tactic(auto, unfolding(crate::specs::Meaning::means))]
    pub fn rmdir(&mut self, text: &[u8]) -> Result<(), LineError>
        requires { IsSound (state_of self.old) }
        ensures said { Means result (state_of self.new) (means kinds.Rmdir (state_of self.old) text.now) }
        ensures sound { OnOk result (IsSound (state_of self.new)) }
    {
        match self.path_alone(text) {
            Ok(path) => self.push(Op::Rmdir { path }),
            Err(error) => Err(error),
        }
    }

    /// `read PATH`
    #[tactic(auto, unfolding(crate::specs::Meaning::means))]
    pub fn read(&mut self, text: &[u8]) -> Result<(), LineError>
        requires { IsSound (state_of self.old) }
        ensures said { Means result (state_of self.new) (means kinds.Read (state_of self.old) text.now) }
        ensures sound { OnOk result (IsSound (state_of self.new)) }
    {
        match self.path_alone(text) {
            Ok(path) => self.push(Op::Read { path }),
            Err(error) => Err(error),
        }
    }

    /// `list PATH`
    #[tactic(auto, unfolding(crate::specs::Meaning::means))]
    pub fn list(&mut self, text: &[u8]) -> Result<(), LineError>
        requires { IsSound (state_of self.old) }
        ensures said { Means result (state_of self.new) (means kinds.List (state_of self.old) text.now) }
        ensures sound { OnOk result (IsSound (state_of self.new)) }
    {
        match self.path_alone(text) {
            Ok(path) => self.push(Op::List { path }),
            Err(error) => Err(error),
        }
    }

    /// `write PATH` or `write PATH TEXT`
    #[tactic(auto, unfolding(crate::specs::Meaning::means), using(crate::proofs::Limits::keeping))]
    pub fn write(&mut self, text: &[u8]) -> Result<(), LineError>
        requires { IsSound (state_of self.old) }
        ensures said { Means result (state_of self.new) (means kinds.Write (state_of self.old) text.now) }
        ensures sound { OnOk result (IsSound (state_of self.new)) }
    {
        let Some((word, rest)) = next_word(text) else {
            return Err(LineError::Fault(LineFault::BadArgument));
        };
        let path = match find_path(word, self.machine.domains, &mut self.names) {
            Ok(path) => path,
            Err(error) => return Err(error),
        };
        let text = match unescape(self.alloc, behind_one(rest)) {
            Ok(text) => text,
            Err(error) => return Err(error),
        };
        let Some(path) = path else {
            return Err(LineError::Fault(LineFault::TooLarge));
        };
        if text.as_slice().len() > MOST_TEXT_BYTES {
            return Err(LineError::Fault(LineFault::TooLarge));
        }
        self.push(Op::Write { path, text })
    }

    /// `flush` or `flush DEC`
    #[tactic(auto, unfolding(crate::specs::Meaning::means), using(crate::proofs::Limits::keeping))]
    pub fn flush(&mut self, text: &[u8]) -> Result<(), LineError>
        requires { IsSound (state_of self.old) }
        ensures said { Means result (state_of self.new) (means kinds.Flush (state_of self.old) text.now) }
        ensures sound { OnOk result (IsSound (state_of self.new)) }
    {
        let Some(domain) = flush_args(&self.machine, text) else {
            return Err(LineError::Fault(LineFault::BadArgument));
        };
        self.push(Op::Flush { domain })
    }

    /// `tick`
    #[tactic(auto, unfolding(crate::specs::Meaning::means), using(crate::proofs::Limits::keeping))]
    pub fn tick(&mut self, text: &[u8]) -> Result<(), LineError>
        requires { IsSound (state_of self.old) }
        ensures said { Means result (state_of self.new) (means kinds.Tick (state_of self.old) text.now) }
        ensures sound { OnOk result (IsSound (state_of self.new)) }
    {
        if !no_word(text) {
            return Err(LineError::Fault(LineFault::BadArgument));
        }
        self.push(Op::Tick)
    }

    // `clflush ADDR`
    #[tactic(auto, unfolding(crate::specs::Meaning::drop_line), using(crate::proofs::Limits::keeping))]
    fn drop_line(&mut self, text: &[u8]) -> Result<(), LineError>
        requires { IsSound (state_of self.old) }
        ensures said { Means result (state_of self.new) (drop_line (state_of self.old) text.now) }
        ensures sound { OnOk result (IsSound (state_of self.new)) }
    {
        let Some(addr) = drop_line_args(text) else {
            return Err(LineError::Fault(LineFault::BadArgument));
        };
        self.push(Op::DropLine { addr })
    }

    // `clflush PATH OFFSET`
    #[tactic(auto, unfolding(crate::specs::Meaning::drop_region), using(crate::proofs::Limits::keeping))]
    fn drop_region(&mut self, text: &[u8]) -> Result<(), LineError>
        requires { IsSound (state_of self.old) }
        ensures said { Means result (state_of self.new) (drop_region (state_of self.old) text.now) }
        ensures sound { OnOk result (IsSound (state_of self.new)) }
    {
        let Some((word, offset)) = drop_region_args(text) else {
            return Err(LineError::Fault(LineFault::BadArgument));
        };
        let path = match find_path(word, self.machine.domains, &mut self.names) {
            Ok(path) => path,
            Err(error) => return Err(error),
        };
        let Some(path) = path else {
            return Err(LineError::Fault(LineFault::TooLarge));
        };
        self.push(Op::DropRegion { path, offset })
    }

    /// `clflush ADDR` or `clflush PATH OFFSET`
    #[tactic(auto, unfolding(crate::specs::Meaning::means))]
    pub fn clflush(&mut self, text: &[u8]) -> Result<(), LineError>
        requires { IsSound (state_of self.old) }
        ensures said { Means result (state_of self.new) (means kinds.Clflush (state_of self.old) text.now) }
        ensures sound { OnOk result (IsSound (state_of self.new)) }
    {
        if has_path(text) {
            self.drop_region(text)
        } else {
            self.drop_line(text)
        }
    }
}
