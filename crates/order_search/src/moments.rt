//! When each op happens, as the journals say.
ghost use Rattle.std.specs.Prelude.{◌≡◌, ◌<◌, length};
ghost use Rattle.machine.specs.Slices.{slice_count};

use rc_base::NoMemory;
use run_law::Journals;
use script_ops::Script;
use std::alloc::Global;

/// What the journals say of an op.
#[derive(Clone, Copy, Debug, PartialEq, Eq)]
pub(crate) enum Moment {
    /// Nothing.
    Unknown,
    /// It is an access. The tree had taken so many commands when it read its tag, and its entry stands at this position of a slice.
    Access {
        epoch: u32,
        position: u32,
        slice: u8,
    },
    /// It is a command, and the tree took it at this position.
    Command {
        position: u32,
    },
}

/// What the journals say of each op of a script, by its thread and its own number.
#[derive(Drop)]
pub(crate) struct Moments {
    rows: Vec<Vec<Moment>>,
}

impl Moments {
    // Nothing of any op.
    fn create(alloc: Global, script: &Script) -> Result<Moments, NoMemory> {
        let mut rows = Vec::new(alloc);
        for thread in 0..script.threads() {
            let row: Vec<Moment> = vec![in alloc; Moment::Unknown; script.ops(thread).len()]?;
            rows.push(row)?;
        }
        Ok(Moments { rows })
    }

    /// What the journals say of an op; nothing where there is no such op.
    pub(crate) fn of(&self, thread: u32, op: u32) -> Moment {
        match self.rows.get(thread as usize) {
            Some(row) => row.get(op as usize).copied().unwrap_or(Moment::Unknown),
            None => Moment::Unknown,
        }
    }

    /// The number of ops of a thread, and 0 where there is no such thread.
    pub(crate) fn ops(&self, thread: u32) -> u32 {
        match self.rows.get(thread as usize) {
            Some(row) => row.len().min(u32::MAX as usize) as u32,
            None => 0,
        }
    }

    // Notes what the journals say of an op.
    fn note(&mut self, thread: u32, op: u32, moment: Moment) {
        if let Some(row) = self.rows.get_mut(thread as usize) {
            if let Some(place) = row.get_mut(op as usize) {
                *place = moment;
            }
        }
    }

    // Notes where the tree took each command.
    fn note_commands(&mut self, journals: &Journals) {
        let mut position: u32 = 0;
        for entry in journals.tree() {
            self.note(entry.thread, entry.op, Moment::Command { position });
            position = position.wrapping_add(1);
        }
    }

    // Notes the accesses with entries in a slice. What is a command has been noted.
    fn note_accesses(&mut self, journals: &Journals, slice: u8)
        requires { slice < length journals.now.slices }
    {
        let mut position: u32 = 0;
        for entry in journals.slice(u32::from(slice)) {
            if self.of(entry.thread, entry.op) == Moment::Unknown {
                let moment = Moment::Access {
                    epoch: entry.epoch.min(u64::from(u32::MAX)) as u32,
                    position,
                    slice,
                };
                self.note(entry.thread, entry.op, moment);
            }
            position = position.wrapping_add(1);
        }
    }
}

/// What the journals say of each op. They have a list for each slice of the script's machine.
pub(crate) fn moments_of(
    alloc: Global,
    script: &Script,
    journals: &Journals,
) -> Result<Moments, NoMemory>
    requires { length journals.now.slices ≡ slice_count script.now.machine }
{
    let mut moments = Moments::create(alloc, script)?;
    moments.note_commands(journals);
    for slice in 0..script.machine().slice_count() {
        moments.note_accesses(journals, slice);
    }
    Ok(moments)
}
