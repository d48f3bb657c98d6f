//! Reading the text of journals.
ghost use Rattle.std.specs.Prelude.{◌≡◌, ◌≤◌, ◌<◌, ◌^◌, ◌==◌, length, false, true, MatchOption};
ghost use Rattle.std.specs.List.{after_first, before_first, list_any};
ghost use Rattle.journal_text.specs.Endings.{ReadsWith};
ghost use Rattle.journal_text.specs.Readings.{Reads};
ghost use Rattle.journal_text.specs.States.{nothing_read};

use crate::fault::ReadError;
use crate::keeper::Keeper;
use crate::kept_journals::KeptJournals;
use crate::reader::Reader;
use crate::weighed_script::WeighedScript;
use crate::weight::script_weight;
use num_text::cut;
use rc_base::NoMemory;
use run_law::Journals;
use script_ops::Script;
use std::alloc::Global;

// The first line of a text, without its newline, and what stands after it; None where no line ends with one.
fn whole_line(text: &[u8]) -> Option<(&[u8], &[u8])>
    ensures { MatchOption result
        (list_any (λ b. b == 10) text.now ≡ false)
        (λ p. (list_any (λ b. b == 10) text.now ≡ true)
        × (p.0.now ≡ before_first (λ b. b == 10) text.now)
        × (p.1.now ≡ after_first (λ b. b == 10) text.now)
        × (length p.1.now < length text.now)) }
{
    let (line, rest) = cut(text, b'\n');
    match rest {
        Some(rest) => Some((line, rest)),
        None => None,
    }
}

/// What a keeper keeps of the journals of the script that a text of at most 2^31 bytes holds, or its first bad line (this project's
/// profile). The keeper was given nothing before. Room is taken as lines are read, and none for entries that a line only announces.
pub fn read_with<K: Keeper + Drop>(
    alloc: Global,
    text: &[u8],
    script: &Script,
    keeper: K,
) -> Result<K, ReadError>
    requires short { length text.now ≤ 2 ^ 31 }
    requires nothing { K.keeps keeper script.now nothing_read }
    ensures { ReadsWith (λ kept. K.keeps kept script.now) script.now text.now result }
{
    let weight = script_weight(script);
    let weighed = WeighedScript { script, weight };
    let mut reader = Reader::create(keeper);
    let mut left = text;
    let mut number: u32 = 0;
    'lines: while let Some((line, rest)) = whole_line(left) {
        number += 1;
        match reader.take(alloc, &weighed, line) {
            Ok(true) => left = rest,
            Ok(false) => return Err(ReadError::Bad { line: number }),
            Err(NoMemory) => return Err(ReadError::NoMemory),
        }
    }
    reader.finish(number, left)
}

/// The journals of the script that a text of at most 2^31 bytes holds, or its first bad line (this project's profile).
pub fn read(alloc: Global, text: &[u8], script: &Script) -> Result<Journals, ReadError>
    requires { length text.now ≤ 2 ^ 31 }
    ensures { Reads script.now text.now result }
{
    match read_with(alloc, text, script, KeptJournals::create(alloc)) {
        Ok(kept) => Ok(kept.into_journals()),
        Err(error) => Err(error),
    }
}
