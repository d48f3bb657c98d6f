//! The worked run both ways, journals that differ from it in one thing, and calls with what they write, worked out by hand.

mod calls;
mod checks;
mod crowded;
mod inputs;
mod journal_texts;
mod runs;
mod text_lines;
mod verdicts;
mod worked_run;

use std::alloc::Global;
use std::test::Fail;

/// These words.
pub(crate) fn words(alloc: Global, texts: &[&str]) -> Result<Vec<String>, Fail> {
    let mut words = Vec::new(alloc);
    for text in texts {
        words.push(String::from_str(alloc, text)?)?;
    }
    Ok(words)
}
