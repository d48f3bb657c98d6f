//! Classes of service, and which of them are taken.
ghost use Rattle.std.specs.Prelude.{◌≡◌, ℕ, ◌<◌, ◌≤◌, ◌≢◌, [], ◌∷◌, ◌↔◌, IsNone, IfSome, IfNone, IsTrue, not, position};
ghost use Rattle.hw_ids.specs.Ids.{contains, with_id, without};
ghost use Rattle.hw_ids.specs.Classes.{IsFree, NoneFree, IsLowestFree};

use std::marker::Model;

/// The greatest number of classes of service that a machine may have (this project's profile).
pub const MAX_CLASSES: usize = 64;

/// The classes of service (CLOSIDs) of a machine, numbered from 0, and those that are taken.
/// Class 0 is the default group's and is never given back (Intel SDM, "Cache Allocation Technology").
#[derive(Debug, Drop)]
pub struct ClassIds {
    taken: [bool; 64],
    count: u8,
}

impl Model for ClassIds {
    ghost use Rattle.std.specs.Prelude.{◌≤◌, take};
    ghost use Rattle.hw_ids.specs.Ids.{places};
    ghost use Rattle.hw_ids.specs.Classes.{Classes};

    ghost Value = { Classes };

    ghost view = { λ c. record { count = c.count; taken = places (λ t. t) 0 (take c.count c.taken) } };

    ghost invariant = { λ c. c.count ≤ 64 };
}

impl ClassIds {
    /// `n` classes, from 1 to 64, of which only class 0 is taken.
    pub fn create(n: u8) -> ClassIds
        requires some { 0 < n }
        requires fits { n ≤ MAX_CLASSES }
        ensures { result ≡ record { count = n; taken = 0 ∷ [] } }
    {
        let mut taken = [false; 64];
        taken[0] = true;
        ClassIds { taken, count: n }
    }

    /// Takes the lowest class that is free. `None` says that none is.
    pub fn take(&mut self) -> Option<u8>
        ensures lowest { IfSome result (IsLowestFree self.old) }
        ensures taken { IfSome result (λ id. self.new ≡ record self.old { taken = with_id id self.old.taken }) }
        ensures none { IsNone result ↔ NoneFree self.old }
        ensures unchanged { IfNone result (self.new ≡ self.old) }
    {
        let id = lowest_free(&self.taken[..self.count as usize])?;
        self.taken[id] = true;
        Some(id as u8)
    }

    /// Gives a class back, which is free from then on.
    pub fn give(&mut self, id: u8)
        requires taken { IsTrue (contains id self.old.taken) }
        requires not_default { id ≢ 0 }
        ensures { self.new ≡ record self.old { taken = without id self.old.taken } }
    {
        self.taken[id as usize] = false;
    }
}

// The place of the first `false`.
fn lowest_free(taken: &[bool]) -> Option<usize>
    ensures { result ≡ position not taken.now }
{
    taken.iter().position(|t| !*t)
}
