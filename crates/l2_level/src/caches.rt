//! The caches of two levels.
ghost use Rattle.std.specs.Prelude.{◌≡◌, IfOk, Some};
ghost use Rattle.l2_level.specs.SoFar.{IsLevelsSoFar};
ghost use Rattle.machine.specs.Maps.{parameters_of};
ghost use Rattle.pair_text.specs.Values.{IsLawful};

use machine::Machine;
use pair_play::{Caches, Level, side_tag};
use pair_text::{PairScript, Side};
use pair_tree::PairTag;
use rc_base::NoMemory;
use std::alloc::Global;

/// The caches of both levels, with their histories so far.
#[derive(Drop)]
pub(crate) struct LevelCaches {
    pub(crate) l2: Level,
    pub(crate) l3: Level,
}

impl LevelCaches {
    /// The caches of a script's machines, empty. Its L2 is this one.
    pub(crate) fn create(
        alloc: Global,
        script: &PairScript,
        l2: &Machine,
    ) -> Result<LevelCaches, NoMemory>
        requires lawful { IsLawful script.now }
        requires l2 { script.now.machines.l2 ≡ Some (parameters_of l2.now) }
        ensures { IfOk result (λ caches. IsLevelsSoFar script.now 0 caches.l2 caches.l3) }
    {
        let l2 = Level::create(alloc, l2)?;
        let l3 = Level::create(alloc, script.machine())?;
        Ok(LevelCaches { l2, l3 })
    }
}

impl Caches for LevelCaches {
    ghost use Rattle.std.proofs.Common.{ap, ◌∙◌};
    ghost use Rattle.l2_level.specs.SoFar.{journals_of};
    ghost use Rattle.pair_text.specs.Values.{side_machine};
    ghost use Rattle.pair_text.specs.declared.side.Side.TheVariants.{First, Second};
    ghost use Rattle.pair_play.proofs.laws.NextOps.{IsLevelSoFar-other};
    ghost use Rattle.pair_play.proofs.laws.OpKinds.{op_asks-other};
    ghost use Rattle.pair_law.specs.LevelRuns.{asked_at, asked_of_op, asked_of_use};

    ghost so_far = { λ script i caches. IsLevelsSoFar script i caches.l2 caches.l3 };

    ghost goes_on = { λ script i op caches so_far is other. record {
      l2 = IsLevelSoFar-other script i (asked_at script (journals_of caches.l2 caches.l3) First) (side_machine script.machines First) caches.l2 so_far.l2 op is other
          (λ d. ap (asked_of_op script (journals_of caches.l2 caches.l3) First d i) is ∙ op_asks-other script (asked_of_use script (journals_of caches.l2 caches.l3) First d i) i op other);
      l3 = IsLevelSoFar-other script i (asked_at script (journals_of caches.l2 caches.l3) Second) (side_machine script.machines Second) caches.l3 so_far.l3 op is other
          (λ d. ap (asked_of_op script (journals_of caches.l2 caches.l3) Second d i) is ∙ op_asks-other script (asked_of_use script (journals_of caches.l2 caches.l3) Second d i) i op other);
    } };

    // The L3 is asked exactly where the L2 misses.
    fn make_use(&mut self, op: u32, tag: &PairTag, line: u64, _code: bool) -> Result<(), NoMemory> {
        let hit = self
            .l2
            .access(op, &side_tag(tag, Side::First, tag.owner), line)?;
        if hit {
            return Ok(());
        }
        self.l3
            .access(op, &side_tag(tag, Side::Second, tag.owner), line)?;
        Ok(())
    }

    fn flush(&mut self, op: u32, epoch: u64) -> Result<(), NoMemory> {
        self.l2.flush(op, epoch)?;
        self.l3.flush(op, epoch)
    }
}
