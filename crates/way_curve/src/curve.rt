//! The curve of the hits by ways.
ghost use Rattle.std.specs.Prelude.{◌≡◌, ℕ, ◌+◌, ◌-◌, ◌^◌, ◌<◌, ◌≤◌, ◌%◌, List, [], replicate, IfOk};
ghost use Rattle.private_lru.specs.declared.item.Item.{Item};
ghost use Rattle.private_lru.specs.declared.item.Item.TheVariants.{Drop, Use};
ghost use Rattle.way_curve.specs.Curves.{set_hits_of};
ghost use Rattle.way_curve.specs.IsCurve.{AddsItem, AddsUse, IsCurve, IsItemCurve, RepeatsRun};
ghost use Rattle.way_curve.specs.ItemCurves.{item_hits_of};
ghost use Rattle.way_curve.specs.Slots.{empty_slots};

use crate::distances::{count, count_run, total};
use crate::recent_lines::{MOST_WAYS, RecentLines};
use rc_base::NoMemory;
use std::alloc::Global;
use std::marker::Model;

/// The hits that a private cache would have with each number of ways, from 0 to 32, counted line by line. Contracts see whose
/// curve it is: that of the lines that were noted, in order (`IsCurve`), and where lines were dropped in between, that of the uses and
/// drops (`IsItemCurve`).
///
/// `recent` has the slots of each set. `at_distance` has for each of the 32 slots how many uses came when their line was in it: just
/// these hit with more ways than that. While no line is dropped, so many other lines of the set were used since the line's last use.
/// A use of a line that is in no slot is counted in `uses` alone.
#[derive(Drop)]
pub struct Curve {
    recent: Vec<RecentLines>,
    at_distance: [u64; MOST_WAYS],
    uses: u64,
}

impl Model for Curve {
    ghost use Rattle.std.specs.Prelude.{length};
    ghost use Rattle.way_curve.specs.IsCurve.{CurveValue, IsKept};

    ghost Value = { CurveValue };

    ghost view = { λ c. record { sets = length c.recent.items; uses = c.uses; recent = c.recent.items; at_distance = c.at_distance } };

    ghost invariant = { λ c. IsKept (length c.recent.items) c.uses c.at_distance };
}

impl Curve {
    /// A curve of no uses, for caches of so many sets, 1 at least. NoMemory where the allocator gives no room for the last lines
    /// of each set, which take 264 bytes. No other call takes memory.
    pub fn create(alloc: Global, sets: u32) -> Result<Curve, NoMemory>
        requires { 0 < sets }
        ensures sets { IfOk result (λ c. c.sets ≡ sets) }
        ensures uses { IfOk result (λ c. c.uses ≡ 0) }
        ensures empty { IfOk result (λ c. IsCurve c []) }
        ensures no_items { IfOk result (λ c. IsItemCurve c []) }
    {
        let recent = empty_sets(alloc, sets)?;
        Ok(Curve {
            recent,
            at_distance: [0; MOST_WAYS],
            uses: 0,
        })
    }

    /// Notes the use of a line, whose set is its number modulo the sets. It takes as many steps as other lines of the set were
    /// used since its last use, 32 at most. After a drop it may take 32 steps.
    pub fn note(&mut self, line: u64)
        requires room { self.old.uses < 2 ^ 64 - 1 }
        ensures sets { self.new.sets ≡ self.old.sets }
        ensures uses { self.new.uses ≡ self.old.uses + 1 }
        ensures line { AddsUse self.old self.new line }
        ensures item { AddsItem self.old self.new (Use line) }
    {
        let set = set_of(self.recent.len(), line);
        let distance = self.recent[set].note(line);
        count(&mut self.at_distance, distance);
        self.uses += 1;
    }

    /// Notes that a line is dropped from the caches, whatever number of ways they have: its next use misses, and the next line that
    /// is not there takes its place. It takes 32 steps at most.
    pub fn drop_line(&mut self, line: u64)
        ensures sets { self.new.sets ≡ self.old.sets }
        ensures uses { self.new.uses ≡ self.old.uses }
        ensures item { AddsItem self.old self.new (Drop line) }
    {
        let set = set_of(self.recent.len(), line);
        self.recent[set].drop_line(line);
    }

    /// Notes once more the uses of as many lines as were noted last, if these are lines one after the other, rising. The lists of the
    /// last lines stay as they are: each line comes after the others of the run in its set. So this takes no more steps for a long
    /// run than for a short one.
    pub fn repeat_run(&mut self, lines: u64)
        requires room { self.old.uses + lines < 2 ^ 64 }
        ensures sets { self.new.sets ≡ self.old.sets }
        ensures uses { self.new.uses ≡ self.old.uses + lines }
        ensures again { RepeatsRun self.old self.new lines }
    {
        count_run(&mut self.at_distance, self.recent.len() as u64, lines);
        self.uses += lines;
    }

    /// How many uses were noted.
    pub fn uses(&self) -> u64
        ensures { result ≡ self.now.uses }
    {
        self.uses
    }

    /// How many of the uses hit in a private cache of so many ways, 32 at most: of each set it keeps that many lines, and where
    /// a use misses, the line that was used longest ago makes room (this project's profile).
    pub fn hits(&self, ways: u8) -> u64
        requires { ways ≤ 32 }
        ensures within { result ≤ self.now.uses }
        ensures hits { (lines : List ℕ) → IsCurve self.now lines → result ≡ set_hits_of self.now.sets ways lines }
        ensures item_hits { (items : List Item) → IsItemCurve self.now items → result ≡ item_hits_of self.now.sets ways items }
    {
        total(&self.at_distance[..ways as usize])
    }

    /// How many of the uses miss in such a cache.
    pub fn misses(&self, ways: u8) -> u64
        requires { ways ≤ 32 }
        ensures misses { (lines : List ℕ) → IsCurve self.now lines → result + set_hits_of self.now.sets ways lines ≡ self.now.uses }
        ensures item_misses { (items : List Item) → IsItemCurve self.now items → result + item_hits_of self.now.sets ways items ≡ self.now.uses }
    {
        self.uses - self.hits(ways)
    }
}

/// The set of a line. Where there are as many as a power of two nothing is divided.
pub(crate) fn set_of(sets: usize, line: u64) -> usize
    requires { 0 < sets }
    ensures { result ≡ line % sets }
{
    let sets = sets as u64;
    if sets.is_power_of_two() {
        (line & (sets - 1)) as usize
    } else {
        (line % sets) as usize
    }
}

/// So many sets of which no line was used.
pub(crate) fn empty_sets(alloc: Global, sets: u32) -> Result<Vec<RecentLines>, NoMemory>
    ensures { IfOk result (λ v. v.items ≡ replicate sets empty_slots) }
{
    let mut recent = Vec::with_capacity(alloc, sets as usize)?;
    for _ in 0..sets {
        recent.push(RecentLines::new())?;
    }
    Ok(recent)
}
