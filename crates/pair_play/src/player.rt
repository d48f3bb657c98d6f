//! Plays pair scripts, of either kind.
ghost use Rattle.std.specs.Prelude.{◌≡◌, ◌+◌, ◌<◌, IfOk, OnOk, length};
ghost use Rattle.pair_law.specs.Epochs.{replies_to};
ghost use Rattle.pair_law.specs.State.{opening};
ghost use Rattle.pair_text.specs.Values.{IsLawful, commands_of};
ghost use Rattle.pair_play.specs.Playing.{IsPlayedSoFar};
ghost use Rattle.pair_play.specs.SoFar.{IsShort};

use crate::caches::Caches;
use crate::commands::Commands;
use pair_text::{PairOp, PairScript};
use rc_base::{NoMemory, Reply};
use std::alloc::Global;

// The groups with the replies so far, and the caches with their histories so far.
#[derive(Drop)]
struct Player<C> {
    commands: Commands,
    caches: C,
}

/// What became of a script: the replies to its commands, in order, and the caches that it was played on.
#[derive(Drop)]
pub struct Played<C> {
    /// The reply to each command of the script, in order.
    pub replies: Vec<Reply>,
    /// The caches after all ops.
    pub caches: C,
}

impl<C: Caches> Player<C> {
    // Plays the next op of the script.
    fn step(&mut self, script: &PairScript, i: u32) -> Result<(), NoMemory>
        requires lawful { IsLawful script.now }
        requires short { IsShort script.now }
        requires so_far { IsPlayedSoFar C.so_far script.now i self.old.commands self.old.caches }
        requires next { i < length script.now.ops }
        ensures { OnOk result (IsPlayedSoFar C.so_far script.now (i + 1) self.new.commands self.new.caches) }
    {
        let op = &script.ops()[i as usize];
        match op {
            PairOp::Use {
                task,
                cpu,
                line,
                code,
            } => {
                let tag = self.commands.resolve(*task, *cpu);
                self.caches.make_use(i, &tag, *line, *code)
            }
            PairOp::Flush => {
                self.commands.take(op)?;
                self.caches.flush(i, self.commands.epoch())
            }
            _ => self.commands.take(op),
        }
    }
}

/// Plays a script on caches that are empty: each command in order and once, and each use of a line by the tag that the groups give it
/// at that moment.
pub fn play_on<C: Caches>(
    alloc: Global,
    script: &PairScript,
    caches: C,
) -> Result<Played<C>, NoMemory>
    requires lawful { IsLawful script.now }
    requires short { IsShort script.now }
    requires fresh { C.so_far script.now 0 caches }
    ensures replies { IfOk result (λ played. played.replies.items ≡ replies_to script.now.machines (opening script.now.machines script.now.tasks) (commands_of script.now)) }
    ensures caches { IfOk result (λ played. C.so_far script.now (length script.now.ops) played.caches) }
{
    let commands = Commands::create(alloc, script)?;
    let mut player = Player { commands, caches };
    for i in 0..script.ops().len() {
        player.step(script, i as u32)?;
    }
    let Player { commands, caches } = player;
    Ok(Played {
        replies: commands.into_replies(),
        caches,
    })
}
