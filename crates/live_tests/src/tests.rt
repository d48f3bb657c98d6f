//! A run that is made by hand, op by op: what the threads are answered and shown, and the journals.

mod accesses;
mod expected;
mod hands;
mod phases;
mod playing;
mod rounds;
mod scripts;
mod turns;

use cache_core::SliceEntry;
use expected::{expected_answers, expected_entries};
use playing::{Played, play_by_hand};
use rc_base::Reply;
use run_law::TreeEntry;
use script_text::read_script;
use scripts::{COMMANDS, SCRIPT, SHOWN};
use std::alloc::Global;
use std::process::Abort;
use std::sync::Wait;
use std::test::Fail;

// The run of the script.
fn play<R: Wait>(rt: &R, alloc: Global) -> Result<Played, Fail> {
    let script = read_script(alloc, SCRIPT)?;
    play_by_hand(rt, alloc, &script)
}

// The command of a thread, by the numbers of both, is accepted without a count.
fn expect_command(rt: &impl Abort, entry: &TreeEntry, command: (u32, u32)) {
    assert_eq!(rt; (entry.thread, entry.op), command);
    assert_eq!(rt; entry.reply, Reply::Ok);
    assert!(rt; entry.looks.items().is_empty());
}

// The commands stand in the tree's history in the order in which they were made.
fn expect_commands(rt: &impl Abort, tree: &[TreeEntry]) {
    assert_eq!(rt; tree.len(), COMMANDS.len());
    for (entry, command) in tree.iter().zip(COMMANDS) {
        expect_command(rt, entry, command);
    }
}

// The only slice has these entries.
fn expect_entries(rt: &impl Abort, slices: &[Vec<SliceEntry>], entries: &[SliceEntry]) {
    assert_eq!(rt; slices.len(), 1);
    assert_eq!(rt; slices[0].as_slice(), entries);
}

#[test]
fn two_threads_take_turns_by_hand(rt: HostRuntime) -> Result<(), Fail> {
    let played = play(&rt, rt.alloc())?;
    let answers = expected_answers(rt.alloc())?;
    assert_eq!(rt; played.answers.as_slice(), answers.as_slice());
    let (tree, slices) = played.journals.into_parts();
    expect_commands(&rt, &tree);
    let entries = expected_entries(rt.alloc())?;
    expect_entries(&rt, &slices, &entries);
    Ok(())
}

#[test]
fn a_thread_is_shown_what_it_read(rt: HostRuntime) -> Result<(), Fail> {
    let played = play(&rt, rt.alloc())?;
    assert_eq!(rt; played.shown.len(), SHOWN.len());
    for (text, want) in played.shown.iter().zip(SHOWN) {
        assert_eq!(rt; text.as_slice(), want);
    }
    Ok(())
}
