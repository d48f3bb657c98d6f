//! The caches of a machine with code and data prioritization.
ghost use Rattle.std.specs.Prelude.{◌≡◌, IfOk, None};
ghost use Rattle.cdp_masks.specs.SoFar.{IsCdpSoFar};
ghost use Rattle.pair_text.specs.Values.{IsLawful};

use crate::registers::tag_of_use;
use pair_play::{Caches, Level};
use pair_text::PairScript;
use pair_tree::PairTag;
use rc_base::NoMemory;
use std::alloc::Global;

/// The caches of all domains, with their histories so far. Data and code share them.
#[derive(Drop)]
pub(crate) struct CdpCaches {
    pub(crate) level: Level,
}

impl CdpCaches {
    /// The caches of a script's machine, empty.
    pub(crate) fn create(alloc: Global, script: &PairScript) -> Result<CdpCaches, NoMemory>
        requires lawful { IsLawful script.now }
        requires code_masks { script.now.machines.l2 ≡ None }
        ensures { IfOk result (λ caches. IsCdpSoFar script.now 0 caches.level) }
    {
        let level = Level::create(alloc, script.machine())?;
        Ok(CdpCaches { level })
    }
}

impl Caches for CdpCaches {
    ghost use Rattle.std.proofs.Common.{ap, ◌∙◌};
    ghost use Rattle.pair_play.proofs.laws.NextOps.{IsLevelSoFar-other};
    ghost use Rattle.pair_play.proofs.laws.OpKinds.{op_asks-other};
    ghost use Rattle.pair_law.specs.CdpRuns.{asked_at, asked_of_op, asked_of_use};

    ghost so_far = { λ script i caches. IsCdpSoFar script i caches.level };

    ghost goes_on = { λ script i op caches so_far is other. record {
      code_masks = so_far.code_masks;
      level = IsLevelSoFar-other script i (asked_at script) script.machines.machine caches.level so_far.level op is other (λ d. ap (asked_of_op script d i) is ∙ op_asks-other script (asked_of_use script d i) i op other);
    } };

    // The access is under the register of the group's class and of the side.
    fn make_use(&mut self, op: u32, tag: &PairTag, line: u64, code: bool) -> Result<(), NoMemory> {
        self.level.access(op, &tag_of_use(tag, code), line)?;
        Ok(())
    }

    fn flush(&mut self, op: u32, epoch: u64) -> Result<(), NoMemory> {
        self.level.flush(op, epoch)
    }
}
