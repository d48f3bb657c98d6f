//! The uses of one program.
ghost use Rattle.std.specs.Prelude.{◌≡◌, ℕ, ◌+◌, ◌-◌, ◌^◌, ◌<◌, ◌≤◌, List, [], IfOk};
ghost use Rattle.lists.specs.Sums.{one_if};
ghost use Rattle.way_curve.specs.IsCurve.{AddsUse, IsCurve};

use rc_base::NoMemory;
use std::alloc::Global;
use std::marker::Model;
use way_curve::Curve;

/// The uses of one program: the curve of the caches that it would have for itself, and how many hit in the one that all share.
#[derive(Drop)]
pub struct OwnUses {
    curve: Curve,
    hits: u64,
}

impl Model for OwnUses {
    ghost use Rattle.std.specs.Prelude.{◌≤◌};
    ghost use Rattle.share_plans.specs.Played.{OwnValue};

    ghost Value = { OwnValue };

    ghost view = { λ o. record { curve = o.curve; hits = o.hits } };

    ghost invariant = { λ o. o.hits ≤ o.curve.uses };
}

impl OwnUses {
    /// No uses, for caches of so many sets, 1 at least. NoMemory where the allocator gives no room for the last lines of each set, which
    /// take 264 bytes. No other call takes memory.
    pub fn create(alloc: Global, sets: u32) -> Result<OwnUses, NoMemory>
        requires { 0 < sets }
        ensures sets { IfOk result (λ o. o.curve.sets ≡ sets) }
        ensures uses { IfOk result (λ o. o.curve.uses ≡ 0) }
        ensures hits { IfOk result (λ o. o.hits ≡ 0) }
        ensures empty { IfOk result (λ o. IsCurve o.curve []) }
    {
        let curve = Curve::create(alloc, sets)?;
        Ok(OwnUses { curve, hits: 0 })
    }

    /// Notes the use of a line, and whether it hits in the cache that all share.
    pub(crate) fn note(&mut self, line: u64, is_hit: bool)
        requires room { self.old.curve.uses < 2 ^ 64 - 1 }
        ensures sets { self.new.curve.sets ≡ self.old.curve.sets }
        ensures uses { self.new.curve.uses ≡ self.old.curve.uses + 1 }
        ensures line { AddsUse self.old.curve self.new.curve line }
        ensures hits { self.new.hits ≡ self.old.hits + one_if is_hit }
    {
        self.curve.note(line);
        if is_hit {
            self.hits += 1;
        }
    }

    /// The curve of the caches of its own.
    pub fn curve(&self) -> &Curve
        ensures { result.now ≡ self.now.curve }
    {
        &self.curve
    }

    /// How many of its uses miss in the cache that all share.
    pub fn shared_misses(&self) -> u64
        ensures { result + self.now.hits ≡ self.now.curve.uses }
    {
        self.curve.uses() - self.hits
    }
}
