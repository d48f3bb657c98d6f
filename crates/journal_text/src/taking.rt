//! Taking the next line of a text of journals.
ghost use Rattle.std.specs.Prelude.{◌≡◌, ◌+◌, ◌<◌, ◌≤◌, IfOk};
ghost use Rattle.journal_text.specs.States.{IsThere, LeavesTree, TakesLine};
ghost use Rattle.journal_text.specs.declared.line_position.LinePosition.TheVariants.{Start, InTree, InSlice};
ghost use Rattle.machine.specs.Slices.{slice_count};
ghost use Rattle.script_ops.specs.Values.{total_weight};

use crate::keeper::Keeper;
use crate::line_position::LinePosition;
use crate::reader::Reader;
use crate::slices::after_slices;
use crate::weighed_script::WeighedScript;
use crate::{command_of_line, entry_of_line};
use rc_base::{NoMemory, is_text};
use script_ops::Script;
use std::alloc::Global;

impl<K: Keeper + Drop> Reader<K> {
    // Takes a line and says true, if it is the first of every text.
    fn take_first(&mut self, script: &Script, line: &[u8]) -> bool
        requires { self.old.position ≡ Start }
        ensures { TakesLine script.now line.now self.old.position (K.keeps self.old.keeper script.now) self.new.position (K.keeps self.new.keeper script.now) result }
    {
        if is_text(line, b"journal 1") {
            self.position = LinePosition::InTree;
            true
        } else {
            false
        }
    }

    // Takes a line and says true, if it may stand after the commands.
    fn leave_tree(&mut self, weighed: &WeighedScript<'_>, line: &[u8]) -> bool
        requires weight { weighed.now.weight ≡ total_weight weighed.now.script.now }
        requires position { self.old.position ≡ InTree }
        ensures { let script = weighed.now.script.now in LeavesTree script line.now self.old.position (K.keeps self.old.keeper script) self.new.position (K.keeps self.new.keeper script) result }
    {
        match after_slices(weighed, 0, line) {
            Some(next) => {
                self.position = next;
                true
            }
            None => false,
        }
    }

    // Takes a line and says true, if it is that of a command, or may stand after the commands.
    fn take_command(
        &mut self,
        alloc: Global,
        weighed: &WeighedScript<'_>,
        line: &[u8],
    ) -> Result<bool, NoMemory>
        requires weight { weighed.now.weight ≡ total_weight weighed.now.script.now }
        requires position { self.old.position ≡ InTree }
        ensures { let script = weighed.now.script.now in IfOk result (TakesLine script line.now self.old.position (K.keeps self.old.keeper script) self.new.position (K.keeps self.new.keeper script)) }
    {
        match command_of_line(alloc, line, weighed.weight)? {
            Some(entry) => {
                self.keeper.add_command(weighed.script, entry)?;
                Ok(true)
            }
            None => Ok(self.leave_tree(weighed, line)),
        }
    }

    // Takes a line and says true, if it is that of an entry of this slice, of which so many are still to come.
    fn take_entry(
        &mut self,
        script: &Script,
        slice: u8,
        left: u64,
        line: &[u8],
    ) -> Result<bool, NoMemory>
        requires position { self.old.position ≡ InSlice slice left }
        requires there { slice < slice_count script.now.machine }
        requires more { 0 < left }
        ensures { IfOk result (TakesLine script.now line.now self.old.position (K.keeps self.old.keeper script.now) self.new.position (K.keeps self.new.keeper script.now)) }
    {
        match entry_of_line(line, script.machine(), u32::from(slice)) {
            Some(entry) => {
                self.keeper.add_entry(script, entry)?;
                self.position = LinePosition::InSlice {
                    slice,
                    left: left - 1,
                };
                Ok(true)
            }
            None => Ok(false),
        }
    }

    // Takes a line and says true, if it may stand after the entries of this slice.
    fn leave_slice(
        &mut self,
        alloc: Global,
        weighed: &WeighedScript<'_>,
        slice: u8,
        line: &[u8],
    ) -> Result<bool, NoMemory>
        requires weight { weighed.now.weight ≡ total_weight weighed.now.script.now }
        requires position { self.old.position ≡ InSlice slice 0 }
        requires there { slice < slice_count weighed.now.script.now.machine }
        ensures { let script = weighed.now.script.now in IfOk result (TakesLine script line.now self.old.position (K.keeps self.old.keeper script) self.new.position (K.keeps self.new.keeper script)) }
    {
        match after_slices(weighed, u32::from(slice) + 1, line) {
            Some(next) => {
                self.keeper.end_slice(alloc, weighed)?;
                self.position = next;
                Ok(true)
            }
            None => Ok(false),
        }
    }

    /// Takes a line and says true, if it may stand after those that were taken. Nothing is promised of the reader after another
    /// answer.
    pub(crate) fn take(
        &mut self,
        alloc: Global,
        weighed: &WeighedScript<'_>,
        line: &[u8],
    ) -> Result<bool, NoMemory>
        requires weight { weighed.now.weight ≡ total_weight weighed.now.script.now }
        requires there { IsThere weighed.now.script.now self.old.position }
        ensures { let script = weighed.now.script.now in IfOk result (TakesLine script line.now self.old.position (K.keeps self.old.keeper script) self.new.position (K.keeps self.new.keeper script)) }
    {
        match self.position {
            LinePosition::Start => Ok(self.take_first(weighed.script, line)),
            LinePosition::InTree => self.take_command(alloc, weighed, line),
            LinePosition::InSlice { slice, left: 0 } => {
                self.leave_slice(alloc, weighed, slice, line)
            }
            LinePosition::InSlice { slice, left } => {
                self.take_entry(weighed.script, slice, left, line)
            }
            LinePosition::Over => Ok(false),
        }
    }
}
