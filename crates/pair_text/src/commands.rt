//! The lines that are commands.
ghost use Rattle.std.specs.Prelude.{Ok, OnOk};
ghost use Rattle.pair_text.specs.PairLines.{file_alone, group_alone, means};
ghost use Rattle.pair_text.specs.Readers.{Gives, IsSound, Means, state_of};
ghost use Rattle.pair_text.specs.PairPaths.{seen};
ghost use Rattle.pair_text.specs.declared.kind.Kind.TheVariants as kinds;

use crate::kind::PairKind;
use crate::pair_paths::{find_file, find_group};
use crate::reader::PairReader;
use crate::stop::{Stop, bad, stopped};
use crate::{PairFile, PairOp};
use line_words::{next_word, no_word, one_word};
use path_names::FileKind;
use rc_base::NoMemory;
use script_lines::LineFault;
use script_lines::escapes::{behind_one, unescape};
use script_ops::{Bytes, MOST_TEXT_BYTES};
use std::alloc::Global;

// These bytes, as a text of an op.
fn owned(alloc: Global, name: &[u8]) -> Result<Bytes, Stop>
    ensures { Gives result (Ok name.now) }
{
    let mut copied = Vec::new(alloc);
    copied.extend_from_slice(name)?;
    match Bytes::from_vec(alloc, copied) {
        Ok(bytes) => Ok(bytes),
        Err(NoMemory) => Err(Stop::NoMemory),
    }
}

// The file of a group.
fn file_of(alloc: Global, group: Option<&[u8]>, kind: FileKind) -> Result<PairFile, Stop>
    ensures { Gives result (Ok (record { group = seen group.entry; kind = kind })) }
{
    let group = match group {
        Some(name) => match owned(alloc, name) {
            Ok(name) => Some(name),
            Err(stop) => return Err(stop),
        },
        None => None,
    };
    Ok(PairFile { group, kind })
}

// The group that the line's only argument names.
#[tactic(auto, unfolding(crate::specs::PairLines::group_alone))]
fn group_alone(alloc: Global, text: &[u8]) -> Result<Bytes, Stop>
    ensures { Gives result (group_alone text.now) }
{
    let Some(word) = one_word(text) else {
        return Err(bad(LineFault::BadArgument));
    };
    match find_group(word) {
        Some(Some(name)) => owned(alloc, name),
        Some(None) => Err(bad(LineFault::TooLarge)),
        None => Err(bad(LineFault::BadPath)),
    }
}

// The file that the line's only argument names.
#[tactic(auto, unfolding(crate::specs::PairLines::file_alone))]
fn file_alone(alloc: Global, text: &[u8]) -> Result<PairFile, Stop>
    ensures { Gives result (file_alone text.now) }
{
    let Some(word) = one_word(text) else {
        return Err(bad(LineFault::BadArgument));
    };
    match find_file(word) {
        Some(Some((group, kind))) => file_of(alloc, group, kind),
        Some(None) => Err(bad(LineFault::TooLarge)),
        None => Err(bad(LineFault::BadPath)),
    }
}

impl PairReader {
    /// `mkdir /NAME`
    #[tactic(auto, unfolding(crate::specs::PairLines::means))]
    pub fn mkdir(&mut self, kind: PairKind, text: &[u8]) -> Result<(), Stop>
        requires { IsSound (state_of self.old) }
        ensures said { Means result (state_of self.new) (means kind kinds.Mkdir (state_of self.old) text.now) }
        ensures sound { OnOk result (IsSound (state_of self.new)) }
    {
        match group_alone(self.alloc, text) {
            Ok(name) => self.push_command(PairOp::Mkdir { name }),
            Err(stop) => Err(stop),
        }
    }

    /// `rmdir /NAME`
    #[tactic(auto, unfolding(crate::specs::PairLines::means))]
    pub fn rmdir(&mut self, kind: PairKind, text: &[u8]) -> Result<(), Stop>
        requires { IsSound (state_of self.old) }
        ensures said { Means result (state_of self.new) (means kind kinds.Rmdir (state_of self.old) text.now) }
        ensures sound { OnOk result (IsSound (state_of self.new)) }
    {
        match group_alone(self.alloc, text) {
            Ok(name) => self.push_command(PairOp::Rmdir { name }),
            Err(stop) => Err(stop),
        }
    }

    /// `read FILE`
    #[tactic(auto, unfolding(crate::specs::PairLines::means))]
    pub fn read(&mut self, kind: PairKind, text: &[u8]) -> Result<(), Stop>
        requires { IsSound (state_of self.old) }
        ensures said { Means result (state_of self.new) (means kind kinds.Read (state_of self.old) text.now) }
        ensures sound { OnOk result (IsSound (state_of self.new)) }
    {
        match file_alone(self.alloc, text) {
            Ok(file) => self.push_command(PairOp::Read { file }),
            Err(stop) => Err(stop),
        }
    }

    /// `write FILE` or `write FILE TEXT`
    #[tactic(auto, unfolding(crate::specs::PairLines::means))]
    pub fn write(&mut self, kind: PairKind, text: &[u8]) -> Result<(), Stop>
        requires { IsSound (state_of self.old) }
        ensures said { Means result (state_of self.new) (means kind kinds.Write (state_of self.old) text.now) }
        ensures sound { OnOk result (IsSound (state_of self.new)) }
    {
        let Some((word, rest)) = next_word(text) else {
            return Err(bad(LineFault::BadArgument));
        };
        let Some(found) = find_file(word) else {
            return Err(bad(LineFault::BadPath));
        };
        let text = match unescape(self.alloc, behind_one(rest)) {
            Ok(text) => text,
            Err(error) => return Err(stopped(error)),
        };
        if text.as_slice().len() > MOST_TEXT_BYTES {
            return Err(bad(LineFault::TooLarge));
        }
        let Some((group, file)) = found else {
            return Err(bad(LineFault::TooLarge));
        };
        match file_of(self.alloc, group, file) {
            Ok(file) => self.push_command(PairOp::Write { file, text }),
            Err(stop) => Err(stop),
        }
    }

    /// `flush`
    #[tactic(auto, unfolding(crate::specs::PairLines::means))]
    pub fn flush(&mut self, kind: PairKind, text: &[u8]) -> Result<(), Stop>
        requires { IsSound (state_of self.old) }
        ensures said { Means result (state_of self.new) (means kind kinds.Flush (state_of self.old) text.now) }
        ensures sound { OnOk result (IsSound (state_of self.new)) }
    {
        if !no_word(text) {
            return Err(bad(LineFault::BadArgument));
        }
        self.push_command(PairOp::Flush)
    }
}
