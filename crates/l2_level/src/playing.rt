//! Plays a script.
ghost use Rattle.std.specs.Prelude.{IfOk, IsSome};
ghost use Rattle.l2_level.specs.Windows.{WindowsAreIsolated};
ghost use Rattle.pair_text.specs.Values.{IsLawful};
ghost use Rattle.pair_play.specs.SoFar.{IsShort};
ghost use Rattle.pair_law.specs.LevelRuns.{IsLevelRun};

use crate::caches::LevelCaches;
use crate::journals::LevelJournals;
use pair_play::{Played, play_on};
use pair_text::PairScript;
use rc_base::NoMemory;
use std::alloc::Global;

/// Plays a script on two levels: each command in order and once, and each use of a line in the L2 and, where it misses there, in the
/// L3, under the masks of its group in the state of that moment; a flush empties the caches of both levels. The journals are a run of
/// the script, and in each of its windows the covered uses of the group do at each level what they would do alone.
pub fn play(alloc: Global, script: &PairScript) -> Result<LevelJournals, NoMemory>
    requires lawful { IsLawful script.now }
    requires levels { IsSome script.now.machines.l2 }
    requires short { IsShort script.now }
    ensures run { IfOk result (λ journals. IsLevelRun script.now journals) }
    ensures isolated { IfOk result (λ journals. WindowsAreIsolated script.now journals) }
{
    let Some(l2) = script.l2() else {
        unreachable!()
    };
    let caches = LevelCaches::create(alloc, script, l2)?;
    let Played { replies, caches } = play_on(alloc, script, caches)?;
    let l2 = caches.l2.into_histories(alloc)?;
    let l3 = caches.l3.into_histories(alloc)?;
    Ok(LevelJournals::of(replies, l2, l3))
}
