//! The counts of lines that a command was given, whose room is taken before they are used.
ghost use Rattle.std.specs.Prelude.{◌≡◌, ◌+◌, ◌≤◌, ◌<◌, [], ◌∷◌, ◌++◌, IfOk};

use crate::names::NoMemory;
use std::alloc::Global;
use std::marker::Model;

/// Numbers of lines, one for each count that a command needs. Contracts see the numbers, and as `spare` how many more fit.
/// Most commands need none: a list without room holds no vector, and takes 16 bytes in all.
#[derive(Drop)]
pub struct LookList {
    items: Option<Box<Vec<u64>>>,
}

impl Model for LookList {
    ghost use Rattle.std.specs.Prelude.{◌-◌, [], option_map, unwrap_or, vec_len, vec_capacity};
    ghost use Rattle.rc_base.specs.Buffers.{Looks};

    ghost Value = { Looks };

    ghost view = { λ l. record {
      numbers = unwrap_or (option_map (λ b. b.value.items) l.items) [];
      spare = unwrap_or (option_map (λ b. vec_capacity b.value - vec_len b.value) l.items) 0;
    } };
}

impl LookList {
    /// An empty list with room for `n` numbers.
    pub fn with_room(alloc: Global, n: u32) -> Result<LookList, NoMemory>
        ensures empty { IfOk result (λ l. l.numbers ≡ []) }
        ensures room { IfOk result (λ l. l.spare ≡ n) }
    {
        if n == 0 {
            return Ok(LookList { items: None });
        }
        let items = Vec::with_capacity(alloc, n as usize)?;
        Ok(LookList {
            items: Some(Box::new(alloc, items)?),
        })
    }

    /// Adds one number.
    pub fn push(&mut self, n: u64)
        requires { 0 < self.old.spare }
        ensures numbers { self.new.numbers ≡ self.old.numbers ++ n ∷ [] }
        ensures spare { self.new.spare + 1 ≡ self.old.spare }
    {
        match &mut self.items {
            Some(items) => items.push_reserved(n),
            None => unreachable!(),
        }
    }

    /// The numbers so far.
    pub fn items(&self) -> &[u64]
        ensures { result.now ≡ self.now.numbers }
    {
        match &self.items {
            Some(items) => items.as_slice(),
            None => &[],
        }
    }
}
