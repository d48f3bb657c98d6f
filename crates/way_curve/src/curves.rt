//! The curves of the uses of data, of code and of both.
ghost use Rattle.std.specs.Prelude.{◌≡◌, ◌+◌, ◌-◌, ◌^◌, ◌<◌, [], ◌∷◌, length, IfOk};
ghost use Rattle.lackey_text.specs.Lines.{IsInMemory};
ghost use Rattle.lackey_text.specs.Uses.{uses_by, uses_of};
ghost use Rattle.lackey_text.specs.declared.line.LackeyKind.TheVariants.{Modify};
ghost use Rattle.lackey_text.specs.declared.line.LackeyLine.TheVariants.{Use};
ghost use Rattle.way_curve.specs.Counting.{AddUses, HaveCounted};
ghost use Rattle.way_curve.specs.Samples.{sample_of};

use crate::Curve;
use crate::sample::is_sampled;
use lackey_text::{LackeyKind, LackeyLine, LineUse};
use rc_base::NoMemory;
use std::alloc::Global;
use std::marker::Model;

/// The hits that private caches of each number of ways would have of the uses of data, of those of code, and of both.
#[derive(Drop)]
pub struct UseCurves {
    of_data: Curve,
    of_code: Curve,
    of_all: Curve,
}

impl Model for UseCurves {
    ghost use Rattle.way_curve.specs.Counting.{AreCounted, CurvesValue};

    ghost Value = { CurvesValue };

    ghost view = { λ c. record { uses = c.of_all.uses; of_data = c.of_data; of_code = c.of_code; of_all = c.of_all } };

    ghost invariant = { λ c. AreCounted c.of_data c.of_code c.of_all };
}

impl UseCurves {
    /// The curves of no uses, for caches of so many sets, 1 at least. NoMemory where the allocator gives no room for the
    /// last lines of each set. No other call takes memory.
    pub fn create(alloc: Global, sets: u32) -> Result<UseCurves, NoMemory>
        requires { 0 < sets }
        ensures uses { IfOk result (λ c. c.uses ≡ 0) }
        ensures empty { IfOk result (λ c. HaveCounted sets c []) }
    {
        let of_data = Curve::create(alloc, sets)?;
        let of_code = Curve::create(alloc, sets)?;
        let of_all = Curve::create(alloc, sets)?;
        Ok(UseCurves {
            of_data,
            of_code,
            of_all,
        })
    }

    /// Notes the use of a line of memory.
    pub fn note(&mut self, used: LineUse)
        requires room { self.old.uses < 2 ^ 64 - 1 }
        ensures uses { self.new.uses ≡ self.old.uses + 1 }
        ensures counted { AddUses self.old self.new (used ∷ []) }
    {
        self.of_all.note(used.line);
        if used.code {
            self.of_code.note(used.line);
        } else {
            self.of_data.note(used.line);
        }
    }

    /// Notes the uses of a line of a trace.
    pub fn note_line(&mut self, said: &LackeyLine)
        requires memory { IsInMemory said.now }
        requires room { self.old.uses + length (uses_of said.now) < 2 ^ 64 }
        ensures uses { self.new.uses ≡ self.old.uses + length (uses_of said.now) }
        ensures counted { AddUses self.old self.new (uses_of said.now) }
    {
        match *said {
            LackeyLine::Use {
                kind: LackeyKind::Modify,
                addr,
                size,
            } => self.note_modified(addr, size),
            _ => self.note_each(said),
        }
    }

    // Notes the loads of data that is modified, and then the stores to the same lines, all at once.
    fn note_modified(&mut self, addr: u64, size: u32)
        requires memory { IsInMemory (Use Modify addr size) }
        requires room { self.old.uses + length (uses_by Modify addr size) < 2 ^ 64 }
        ensures uses { self.new.uses ≡ self.old.uses + length (uses_by Modify addr size) }
        ensures counted { AddUses self.old self.new (uses_by Modify addr size) }
    {
        let before = self.of_all.uses();
        self.note_each(&LackeyLine::Use {
            kind: LackeyKind::Load,
            addr,
            size,
        });
        let lines = self.of_all.uses() - before;
        self.of_all.repeat_run(lines);
        self.of_data.repeat_run(lines);
    }

    // Notes the uses of a line of a trace one by one.
    fn note_each(&mut self, said: &LackeyLine)
        requires memory { IsInMemory said.now }
        requires room { self.old.uses + length (uses_of said.now) < 2 ^ 64 }
        ensures uses { self.new.uses ≡ self.old.uses + length (uses_of said.now) }
        ensures counted { AddUses self.old self.new (uses_of said.now) }
    {
        for used in said.uses() {
            self.note(used);
        }
    }

    /// Notes those uses of a line of a trace that the sample of one line of memory of so many has.
    pub fn note_sample(&mut self, one_of: u32, said: &LackeyLine)
        requires memory { IsInMemory said.now }
        requires room { self.old.uses + length (uses_of said.now) < 2 ^ 64 }
        ensures uses { self.new.uses ≡ self.old.uses + length (sample_of one_of (uses_of said.now)) }
        ensures counted { AddUses self.old self.new (sample_of one_of (uses_of said.now)) }
    {
        for used in said.uses() {
            if is_sampled(one_of, used.line) {
                self.note(used);
            }
        }
    }

    /// The curve of the uses of data.
    pub fn of_data(&self) -> &Curve
        ensures { result.now ≡ self.now.of_data }
    {
        &self.of_data
    }

    /// The curve of the uses of code.
    pub fn of_code(&self) -> &Curve
        ensures { result.now ≡ self.now.of_code }
    {
        &self.of_code
    }

    /// The curve of all uses.
    pub fn of_all(&self) -> &Curve
        ensures { result.now ≡ self.now.of_all }
    {
        &self.of_all
    }
}
