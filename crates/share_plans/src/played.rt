//! The uses of several programs, played in caches of their own and in one that they share.
ghost use Rattle.std.specs.Prelude.{◌≡◌, ℕ, ◌+◌, ◌-◌, ◌*◌, ◌^◌, ◌<◌, ◌≤◌, List, [], ◌∷◌, IfOk, IfSome, All, Some, length};
ghost use Rattle.lackey_text.specs.Lines.{IsInMemory};
ghost use Rattle.lackey_text.specs.Uses.{uses_of};
ghost use Rattle.way_curve.specs.Curves.{is_set_hit};
ghost use Rattle.way_curve.specs.IsCurve.{AddsUse, IsCurve};
ghost use Rattle.share_plans.specs.Played.{HavePlayed, OwnValue, PlayUses};
ghost use Rattle.share_plans.specs.Sharing.{far as far_in};
ghost use Rattle.share_plans.specs.Streams.{uses_by, uses_in};

use crate::own_uses::OwnUses;
use crate::program_use::ProgramUse;
use crate::step::Step;
use lackey_text::LackeyLine;
use rc_base::NoMemory;
use std::alloc::Global;
use std::marker::Model;
use way_curve::Curve;

/// The uses of several programs, played in caches of their own and in one that they share.
///
/// `far` is how far the lines of a program stand from those of the one before it in the cache that they share.
#[derive(Drop)]
pub struct Played {
    ways: u8,
    far: u64,
    programs: Vec<OwnUses>,
    shared: Curve,
}

impl Model for Played {
    ghost use Rattle.share_plans.specs.Played.{IsPlayable, PlayedValue};

    ghost Value = { PlayedValue };

    ghost view = { λ p. record { ways = p.ways; programs = p.programs.items; shared = p.shared } };

    ghost invariant = { λ p. IsPlayable p.ways p.far p.programs.items p.shared };
}

// How far the lines of a program stand from those of the one before it.
fn far_of(sets: u32) -> u64
    requires { 0 < sets }
    ensures far { result ≡ far_in sets }
    ensures few { result ≤ 2 ^ 43 }
{
    let sets = u64::from(sets);
    ((1 << 42) / sets + 1) * sets
}

// No uses of so many programs.
fn no_uses(alloc: Global, sets: u32, programs: u8) -> Result<Vec<OwnUses>, NoMemory>
    requires { 0 < sets }
    ensures count { IfOk result (λ own. length own.items ≡ programs) }
    ensures sets { IfOk result (λ own. All (λ (o : OwnValue). o.curve.sets ≡ sets) own.items) }
    ensures uses { IfOk result (λ own. All (λ (o : OwnValue). o.curve.uses ≡ 0) own.items) }
    ensures hits { IfOk result (λ own. All (λ (o : OwnValue). o.hits ≡ 0) own.items) }
    ensures empty { IfOk result (λ own. All (λ (o : OwnValue). IsCurve o.curve []) own.items) }
{
    let mut own = Vec::with_capacity(alloc, programs as usize)?;
    for _ in 0..programs {
        let one = OwnUses::create(alloc, sets)?;
        own.push(one)?;
    }
    Ok(own)
}

// Notes the use of a line, and answers whether it hits in a cache of so many ways.
fn note_hit(curve: &mut Curve, ways: u8, line: u64) -> bool
    requires ways { ways ≤ 32 }
    requires room { curve.old.uses < 2 ^ 64 - 1 }
    ensures sets { curve.new.sets ≡ curve.old.sets }
    ensures uses { curve.new.uses ≡ curve.old.uses + 1 }
    ensures line { AddsUse curve.old curve.new line }
    ensures hit { (lines : List ℕ) → IsCurve curve.old lines → result ≡ is_set_hit curve.old.sets ways lines line }
{
    let before = curve.hits(ways);
    curve.note(line);
    before < curve.hits(ways)
}

impl Played {
    /// No uses of so many programs, 32 at most, for caches of so many sets, 1 at least, of which one with so many ways, 32 at most, is
    /// shared. NoMemory where the allocator gives no room for the last lines of each set: 264 bytes for each program, and as many more.
    /// No other call takes memory.
    pub fn create(alloc: Global, sets: u32, ways: u8, programs: u8) -> Result<Played, NoMemory>
        requires some { 0 < sets }
        requires ways { ways ≤ 32 }
        requires few { programs ≤ 32 }
        ensures uses { IfOk result (λ p. p.shared.uses ≡ 0) }
        ensures count { IfOk result (λ p. length p.programs ≡ programs) }
        ensures empty { IfOk result (λ p. HavePlayed (record { programs = programs; sets = sets; ways = ways }) p []) }
    {
        let own = no_uses(alloc, sets, programs)?;
        let shared = Curve::create(alloc, sets)?;
        Ok(Played {
            ways,
            far: far_of(sets),
            programs: own,
            shared,
        })
    }

    /// Notes the use of a line of memory.
    pub fn note(&mut self, used: ProgramUse)
        requires program { used.program < length self.old.programs }
        requires line { used.line < 2 ^ 42 }
        requires room { self.old.shared.uses < 2 ^ 64 - 1 }
        ensures count { length self.new.programs ≡ length self.old.programs }
        ensures uses { self.new.shared.uses ≡ self.old.shared.uses + 1 }
        ensures played { PlayUses self.old self.new (used ∷ []) }
    {
        let line = u64::from(used.program) * self.far + used.line;
        let is_hit = note_hit(&mut self.shared, self.ways, line);
        self.programs[used.program as usize].note(used.line, is_hit);
    }

    /// Notes the uses that a line of a stream says.
    pub(crate) fn note_step(&mut self, step: &Step)
        requires program { IfSome step.now.turn (λ program. program < length self.old.programs) }
        requires memory { IsInMemory step.now.said }
        requires room { self.old.shared.uses + length (uses_of step.now.said) < 2 ^ 64 }
        ensures count { length self.new.programs ≡ length self.old.programs }
        ensures uses { self.new.shared.uses ≤ self.old.shared.uses + length (uses_of step.now.said) }
        ensures played { PlayUses self.old self.new (uses_in step.now) }
    {
        if let Some(program) = step.turn {
            self.note_uses(program, &step.said);
        }
    }

    // Notes the uses of a program by a line of a trace.
    fn note_uses(&mut self, program: u8, said: &LackeyLine)
        requires program { program < length self.old.programs }
        requires memory { IsInMemory said.now }
        requires room { self.old.shared.uses + length (uses_of said.now) < 2 ^ 64 }
        ensures count { length self.new.programs ≡ length self.old.programs }
        ensures uses { self.new.shared.uses ≤ self.old.shared.uses + length (uses_of said.now) }
        ensures played { PlayUses self.old self.new (uses_by (Some program) (uses_of said.now)) }
    {
        for used in said.uses() {
            self.note(ProgramUse {
                program,
                line: used.line,
                code: used.code,
            });
        }
    }

    /// How many programs there are.
    pub fn count(&self) -> u8
        ensures { result ≡ length self.now.programs }
    {
        self.programs.len() as u8
    }

    /// The uses of each program, of which none has more than all have together.
    pub fn programs(&self) -> &[OwnUses]
        ensures programs { result.now ≡ self.now.programs }
        ensures few { All (λ (o : OwnValue). o.curve.uses ≤ self.now.shared.uses) result.now }
    {
        &self.programs
    }
}
