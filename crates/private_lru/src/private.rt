//! A private cache that replaces the line used longest ago, played on a list of uses and drops of lines.

ghost use Rattle.std.specs.Prelude.{◌≡◌, ℕ, ◌<◌, ◌∷◌, take, IfOk, false};
ghost use Rattle.private_lru.specs.Private.{among, hits_of, kept_after, was_kept, without};

use crate::item::Item;
use rc_base::NoMemory;
use std::alloc::Global;

/// Whether each of these items of one set is a use that hits in a private cache of so many ways, 1 or more, that is empty at
/// first: the line was used before and not dropped since, and at no point since were as many other lines kept as there are
/// ways. (This project's profile.)
pub fn private_hits(alloc: Global, items: &[Item], ways: u32) -> Result<Vec<bool>, NoMemory>
    requires ways { 0 < ways }
    ensures hits { IfOk result (λ hits. hits.items ≡ hits_of ways items.now) }
{
    let mut recent: Vec<u64> = Vec::new(alloc);
    let mut hits: Vec<bool> = Vec::new(alloc);
    for item in items {
        let hit = note_item(&mut recent, *item, ways)?;
        hits.push(hit)?;
    }
    Ok(hits)
}

// Notes an item, and answers whether it is a use of a line that was there.
fn note_item(recent: &mut Vec<u64>, item: Item, ways: u32) -> Result<bool, NoMemory>
    ensures kept { IfOk result (λ _. recent.new.items ≡ kept_after ways recent.old.items item) }
    ensures hit { IfOk result (λ hit. hit ≡ was_kept recent.old.items item) }
{
    match item {
        Item::Use { line } => note_use(recent, line, ways),
        Item::Drop { line } => {
            recent.retain(|other| *other != line);
            Ok(false)
        }
    }
}

// The line goes in front, at most `ways` lines stay, and the answer is whether it was there.
fn note_use(recent: &mut Vec<u64>, line: u64, ways: u32) -> Result<bool, NoMemory>
    ensures kept { IfOk result (λ _. recent.new.items ≡ take ways (line ∷ without line recent.old.items)) }
    ensures hit { IfOk result (λ hit. hit ≡ among line recent.old.items) }
{
    let hit = recent.contains(&line);
    recent.retain(|other| *other != line);
    recent.insert(0, line)?;
    recent.truncate(ways as usize);
    Ok(hit)
}
