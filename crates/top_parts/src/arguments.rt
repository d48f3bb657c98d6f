//! The words of a command line, from the arguments that the system gives.
ghost use Rattle.std.specs.Prelude.{◌≡◌, ◌≢◌, IfErr, IfOk, IsErr, IsOk, drop};
ghost use Rattle.std.specs.Vec.Iter.{into_iter_items};
ghost use Rattle.std.specs.IoError.{error_kind};
ghost use Rattle.top_parts.specs.Arguments.{words_in};

use rc_base::NoMemory;
use std::alloc::Global;
use std::env::Args;
use std::io;
use std::io::ErrorKind;

// The words after the first.
fn after_first(alloc: Global, mut all: Args) -> Result<Vec<String>, NoMemory>
    ensures { IfOk result (λ words. words.items ≡ drop 1 (into_iter_items all)) }
{
    let _ = all.next();
    let words = all.collect(alloc)?;
    Ok(words)
}

/// The words after the program's name. Where an argument is no text in UTF-8 there are none, and no words are no form either.
/// NoMemory where memory ran out, here or for the arguments.
pub fn words_of(alloc: Global, arguments: io::Result<Args>) -> Result<Vec<String>, NoMemory>
    ensures words { IfOk result (λ words. words.items ≡ words_in arguments) }
    ensures no_text { IfErr arguments (λ e. error_kind e ≡ ErrorKind.InvalidData → IsOk result) }
    ensures memory { IfErr arguments (λ e. error_kind e ≢ ErrorKind.InvalidData → IsErr result) }
{
    match arguments {
        Ok(all) => after_first(alloc, all),
        Err(error) if error.kind() == ErrorKind::InvalidData => Ok(Vec::new(alloc)),
        Err(_) => Err(NoMemory),
    }
}
