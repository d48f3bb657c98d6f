//! The command that a line is.
ghost use Rattle.std.specs.Prelude.{◌≡◌, ℕ, [], List, length, IfOk, MatchOption};
ghost use Rattle.journal_text.specs.Heads.{IsCommandHead};
ghost use Rattle.journal_text.specs.Lines.{argument_in, command_line, reason_in};
ghost use Rattle.journal_text.specs.Taken.{EndsWord, Takes};
ghost use Rattle.journal_text.specs.Writable.{IsWritableCommand, IsWritableReply};
ghost use Rattle.rc_base.specs.declared.replies.Reply.{Reply};
ghost use Rattle.rc_base.specs.declared.replies.Reply.TheVariants as replies;
ghost use Rattle.run_law.specs.Entries.{entry_value};
ghost use Rattle.run_law.specs.TreeHistory.{TreeEntryValue};

use crate::cursor::{first_word, take_number, take_three, take_two};
use crate::fields::narrow;
use crate::reasons::reason_numbered;
use rc_base::{LookList, NoMemory, Reply, is_text};
use run_law::TreeEntry;
use std::alloc::Global;

// What a line says before the looks, and how many they are.
#[derive(Clone, Copy)]
struct CommandHead {
    thread: u32,
    op: u32,
    reply: Reply,
    looks: u64,
}

// The reply with this number and argument.
fn reply_of(reason: u64, arg: u64) -> Option<Reply>
    ensures { MatchOption result
        ((r : Reply) → IsWritableReply r → reason_in r ≡ reason → argument_in r ≡ arg → ⊥)
        (λ r. IsWritableReply r × (reason_in r ≡ reason) × (argument_in r ≡ arg)) }
{
    if reason == 0 {
        return accepted(arg);
    }
    let why = reason_numbered(reason)?;
    Some(Reply::refused(why, arg))
}

// An accepted command has the argument 0.
fn accepted(arg: u64) -> Option<Reply>
    ensures { MatchOption result (arg ≡ 0 → ⊥) (λ r. (r ≡ replies.Ok) × (arg ≡ 0)) }
{
    if arg == 0 { Some(Reply::Ok) } else { None }
}

// The front of a command's line, and the text of its looks. There is room in the text for so many.
fn head_of(line: &[u8], weight: u64) -> Option<(CommandHead, &[u8])>
    ensures { MatchOption result
        ((e : TreeEntryValue) → IsWritableCommand weight e → command_line e ≡ line.now → ⊥)
        (λ p. IsCommandHead weight p.0 p.1.now line.now) }
{
    let (word, rest) = first_word(line);
    if !is_text(word, b"tree") {
        return None;
    }
    let (thread, op, reason, rest) = take_three(rest)?;
    let (arg, looks, rest) = take_two(rest)?;
    if looks > weight {
        return None;
    }
    if looks > rest.len() as u64 / 2 {
        return None;
    }
    let thread = narrow(thread)?;
    let op = narrow(op)?;
    let reply = reply_of(reason, arg)?;
    let head = CommandHead {
        thread,
        op,
        reply,
        looks,
    };
    Some((head, rest))
}

// So many looks, where the text is just these.
fn looks_of(alloc: Global, count: u32, text: &[u8]) -> Result<Option<LookList>, NoMemory>
    requires { EndsWord text.now }
    ensures { IfOk result (λ found. MatchOption found
        ((looks : List ℕ) → length looks ≡ count → Takes looks [] text.now → ⊥)
        (λ l. (length l.numbers ≡ count) × Takes l.numbers [] text.now)) }
{
    let mut looks = LookList::with_room(alloc, count)?;
    let mut left = text;
    for _ in 0..count {
        let Some((look, rest)) = take_number(left) else {
            return Ok(None);
        };
        looks.push(look);
        left = rest;
    }
    if left.is_empty() {
        Ok(Some(looks))
    } else {
        Ok(None)
    }
}

/// The command whose line this is, without the newline, in a script of this weight. None where the line is that of no command
/// whose numbers are in their ranges: a reason from 1 to 42 or 0 for an accepted command, whose argument is 0 too, and at most
/// `weight` counts of lines (this project's profile). Room is taken for the counts alone, which are less than half as many as the
/// line has bytes.
pub fn command_of_line(
    alloc: Global,
    line: &[u8],
    weight: u64,
) -> Result<Option<TreeEntry>, NoMemory>
    ensures { IfOk result (λ found. MatchOption found
        ((e : TreeEntryValue) → IsWritableCommand weight e → command_line e ≡ line.now → ⊥)
        (λ e. IsWritableCommand weight (entry_value e) × (command_line (entry_value e) ≡ line.now))) }
{
    let Some((head, text)) = head_of(line, weight) else {
        return Ok(None);
    };
    // No list has room for more than 2^32 - 1 counts.
    let Ok(count) = u32::try_from(head.looks) else {
        return Err(NoMemory);
    };
    let Some(looks) = looks_of(alloc, count, text)? else {
        return Ok(None);
    };
    Ok(Some(TreeEntry {
        thread: head.thread,
        op: head.op,
        reply: head.reply,
        looks,
    }))
}
