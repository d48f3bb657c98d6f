//! The groups that were made.
ghost use Rattle.std.specs.Prelude.{◌≡◌, ◌+◌, ◌<◌, ◌^◌, ◌++◌, All, IfOk, OnOk, length, map};
ghost use Rattle.pair_text.specs.Values.{commands_of};
ghost use Rattle.pair_windows.specs.Replays.{IsPlayable};
ghost use Rattle.pair_report.specs.LinesBefore.{HasMade, group_made, made_by, makes};
ghost use Rattle.pair_report.specs.MadeGroups.{made_from};
ghost use Rattle.pair_report.specs.declared.made.MadeGroup.{MadeGroup as MadeGroupValue};

use crate::counts::reply_at;
use pair_text::{PairOp, PairScript};
use pair_windows::is_command;
use rc_base::{NoMemory, Reply};
use std::alloc::Global;

/// A group that was made: its serial number, and the place of the op that made it.
#[derive(Clone, Copy, Debug, PartialEq, Eq, Drop)]
pub(crate) struct MadeGroup {
    /// The serial number, from 1.
    pub gid: u32,
    /// The place of the op.
    pub place: usize,
}

// Whether a command with this reply makes a group.
fn makes(op: &PairOp, reply: Reply) -> bool
    ensures { result ≡ makes op.now reply }
{
    matches!((op, reply), (PairOp::Mkdir { .. }, Reply::Ok))
}

// Adds the group that a command makes, where it makes one.
fn push_made(
    made: &mut Vec<MadeGroup>,
    op: &PairOp,
    reply: Reply,
    place: usize,
) -> Result<(), NoMemory>
    requires { length made.old.items + 1 < 2 ^ 32 }
    ensures { OnOk result (made.new.items ≡ made.old.items ++ made_by op.now reply (length made.old.items + 1) place) }
{
    if makes(op, reply) {
        let gid = made.len() as u32 + 1;
        made.push(MadeGroup { gid, place })?;
    }
    Ok(())
}

// Takes the next op, before which so many commands stand, and returns how many stand before the one after it.
fn take_op(
    made: &mut Vec<MadeGroup>,
    script: &PairScript,
    replies: &[Reply],
    i: usize,
    k: usize,
) -> Result<usize, NoMemory>
    requires playable { IsPlayable script.now }
    requires answered { length replies.now ≡ length (commands_of script.now) }
    requires within { i < length script.now.ops }
    requires so_far { HasMade script.now replies.now i k made.old.items }
    ensures { IfOk result (λ next. HasMade script.now replies.now (i + 1) next made.new.items) }
{
    let op = &script.ops()[i];
    if !is_command(op) {
        return Ok(k);
    }
    push_made(made, op, reply_at(replies, k), i)?;
    Ok(k + 1)
}

/// The groups that the commands of a script made, by their replies, in order of creation.
pub(crate) fn made_groups(
    alloc: Global,
    script: &PairScript,
    replies: &[Reply],
) -> Result<Vec<MadeGroup>, NoMemory>
    requires playable { IsPlayable script.now }
    requires answered { length replies.now ≡ length (commands_of script.now) }
    ensures made { IfOk result (λ made. map (group_made script.now) made.items ≡ made_from 1 (commands_of script.now) replies.now) }
    ensures few { IfOk result (λ made. All (λ (m : MadeGroupValue). m.gid < 2 ^ 31) made.items) }
{
    let mut made: Vec<MadeGroup> = Vec::new(alloc);
    let mut k = 0;
    for i in 0..script.ops().len() {
        k = take_op(&mut made, script, replies, i, k)?;
    }
    Ok(made)
}
