//! Uses of lines on the CPUs of an L3 domain.
ghost use Rattle.std.specs.Prelude.{◌≡◌, Bool, ◌<◌, ◌∷◌, [], ◌++◌, Contains, OnOk, Some, length};
ghost use Rattle.cache_core.specs.declared.entry.What.TheVariants.{Access as AnAccess};
ghost use Rattle.pair_windows.specs.Segments.{use_in};
ghost use Rattle.pair_law.specs.Bounds.{tasks_of};
ghost use Rattle.pair_text.specs.Values.{op_at};
ghost use Rattle.pair_text.specs.declared.op.PairOp.TheVariants as ops;
ghost use Rattle.pair_windows.specs.Replays.{HasTaken, IsPlayable};
ghost use Rattle.pair_law.specs.Entries.{entry};

use crate::Replay;
use crate::level_spans::LevelState;
use cache_core::{SliceEntry, What};
use pair_text::{PairOp, PairScript};
use rc_base::{Gid, NoMemory};

/// A use of a line by a group.
#[derive(Clone, Copy, Drop)]
pub(crate) struct LineUse {
    /// The group.
    pub owner: Gid,
    /// The number of the line.
    pub line: u64,
}

// Whose use it is, where it is on a CPU of the domain.
fn use_of(state: &LevelState<'_>, task: u32, cpu: u8, line: u64) -> Option<LineUse>
    requires machines { state.now.tree.now.machines ≡ state.now.script.now.machines }
    requires task { Contains (tasks_of state.now.tree.now.state) task }
    requires cpu { cpu < state.now.script.now.machines.machine.cpus }
    ensures { (code : Bool) → result ≡ use_in state.now.script.now state.now.tree.now.state state.now.domain (Some (ops.Use task cpu line code)) }
{
    let own = state.script.machine().domain_of(cpu);
    if own != state.domain {
        return None;
    }
    Some(LineUse {
        owner: state.tree.resolve(task, cpu).owner,
        line,
    })
}

/// Whose use the next op is, where it is one on a CPU of an L3 domain.
pub(crate) fn next_use(script: &PairScript, domain: u8, replay: &Replay) -> Option<LineUse>
    requires playable { IsPlayable script.now }
    requires taken { HasTaken script.now replay.now }
    requires within { replay.now.place < length script.now.ops }
    ensures { result ≡ use_in script.now replay.now.tree.state domain (op_at script.now replay.now.place) }
{
    match &script.ops()[replay.place()] {
        PairOp::Use {
            task,
            cpu,
            line,
            ..
        } => {
            let state = LevelState {
                script,
                tree: replay.tree(),
                domain,
            };
            use_of(&state, *task, *cpu, *line)
        }
        _ => None,
    }
}

/// Adds the entry of a use, which hit or not.
pub(crate) fn push_entry(
    entries: &mut Vec<SliceEntry>,
    u: LineUse,
    op: u32,
    epoch: u64,
    hit: bool,
) -> Result<(), NoMemory>
    ensures { OnOk result (entries.new.items ≡ entries.old.items ++ entry op epoch (AnAccess hit 0 u.owner 0 0 u.line) ∷ []) }
{
    entries.push(SliceEntry {
        thread: 0,
        op,
        epoch,
        what: What::Access {
            hit,
            way: 0,
            owner: u.owner,
            rmid: 0,
            mask: 0,
            line: u.line,
        },
    })?;
    Ok(())
}
