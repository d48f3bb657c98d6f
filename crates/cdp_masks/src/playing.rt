//! Plays a script.
ghost use Rattle.std.specs.Prelude.{◌≡◌, None, IfOk};
ghost use Rattle.cdp_masks.specs.Windows.{WindowsAreIsolated};
ghost use Rattle.pair_text.specs.Values.{IsLawful};
ghost use Rattle.pair_play.specs.SoFar.{IsShort};
ghost use Rattle.pair_law.specs.CdpRuns.{IsCdpRun};

use crate::caches::CdpCaches;
use crate::journals::CdpJournals;
use pair_play::{Played, play_on};
use pair_text::PairScript;
use rc_base::NoMemory;
use std::alloc::Global;

/// Plays a script on data and code masks: each command in order and once, and each use of a line under the register of its side in
/// the state of that moment; a flush empties the caches of all domains. The journals are a run of the script, and in each of its
/// windows the side of the group is isolated.
pub fn play(alloc: Global, script: &PairScript) -> Result<CdpJournals, NoMemory>
    requires lawful { IsLawful script.now }
    requires code_masks { script.now.machines.l2 ≡ None }
    requires short { IsShort script.now }
    ensures run { IfOk result (λ journals. IsCdpRun script.now journals) }
    ensures isolated { IfOk result (λ journals. WindowsAreIsolated script.now journals) }
{
    let caches = CdpCaches::create(alloc, script)?;
    let Played { replies, caches } = play_on(alloc, script, caches)?;
    let slices = caches.level.into_histories(alloc)?;
    Ok(CdpJournals::of(replies, slices))
}
