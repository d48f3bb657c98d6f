//! The words of a command line, from the arguments that the system gives.
ghost use Rattle.std.specs.Prelude.{◌≡◌, ◌≢◌, IfErr, IfOk, IsErr, None, drop};
ghost use Rattle.std.specs.IoError.{error_kind};
ghost use Rattle.std.specs.Vec.Iter.{into_iter_items};
ghost use Rattle.pair_top.specs.Forms.{form_of as form_in};

use rc_base::NoMemory;
use std::alloc::Global;
use std::env::Args;
use std::io;
use std::io::ErrorKind;
use top_parts::words_of;

// A word that is no form: an empty one.
#[tactic(auto, unfolding(rc_base::specs::Texts::is_text))]
fn no_form(alloc: Global) -> Result<Vec<String>, NoMemory>
    ensures { IfOk result (λ words. form_in words.items ≡ None) }
{
    let mut words = Vec::new(alloc);
    words.push(String::new(alloc))?;
    Ok(words)
}

/// The words after the program's name. Where an argument is no text in UTF-8 there is an empty word in their place, which is no form:
/// no words at all are one. NoMemory where memory ran out, here or for the arguments.
pub fn given_words(alloc: Global, arguments: io::Result<Args>) -> Result<Vec<String>, NoMemory>
    ensures words { IfOk arguments (λ all. IfOk result (λ words. words.items ≡ drop 1 (into_iter_items all))) }
    ensures no_text { IfErr arguments (λ e. error_kind e ≡ ErrorKind.InvalidData → IfOk result (λ words. form_in words.items ≡ None)) }
    ensures memory { IfErr arguments (λ e. error_kind e ≢ ErrorKind.InvalidData → IsErr result) }
{
    match arguments {
        Err(error) if error.kind() == ErrorKind::InvalidData => no_form(alloc),
        given => words_of(alloc, given),
    }
}
