//! What becomes of journals while their text is read.
ghost use Rattle.std.specs.Prelude.{◌≡◌, [], OnOk};
ghost use Rattle.journal_text.specs.States.{PartsRead, with_command, with_entry, with_slice};
ghost use Rattle.run_law.specs.Entries.{entry_value};
ghost use Rattle.script_ops.specs.Values.{ScriptValue, total_weight};

use crate::weighed_script::WeighedScript;
use cache_core::SliceEntry;
use rc_base::NoMemory;
use run_law::TreeEntry;
use script_ops::Script;
use std::alloc::Global;

/// Takes the journals of a script part by part, as a reader comes upon them, and keeps of them what it likes. Nothing is promised of
/// it after an error.
pub trait Keeper {
    /// What is kept is what is kept of these parts of journals of the script.
    ghost keeps: { Self → ScriptValue → PartsRead → Type 0 };

    /// Takes the next command of the tree. No slice was read before it.
    fn add_command(&mut self, script: &Script, entry: TreeEntry) -> Result<(), NoMemory>
        ensures { OnOk result ((parts : PartsRead) → parts.slices ≡ [] → keeps self.old script.now parts → keeps self.new script.now (with_command parts (entry_value entry))) };

    /// Takes the next entry of the slice that is being read.
    fn add_entry(&mut self, script: &Script, entry: SliceEntry) -> Result<(), NoMemory>
        ensures { OnOk result ((parts : PartsRead) → keeps self.old script.now parts → keeps self.new script.now (with_entry parts entry)) };

    /// The slice that was being read is whole. Told is the script that all journals are of, with its weight.
    fn end_slice(&mut self, alloc: Global, weighed: &WeighedScript<'_>) -> Result<(), NoMemory>
        requires weight { weighed.now.weight ≡ total_weight weighed.now.script.now }
        ensures { let script = weighed.now.script.now in OnOk result ((parts : PartsRead) → keeps self.old script parts → keeps self.new script (with_slice parts)) };
}
