//! The steps of a command that holds the tree: the counts that it needs, what follows it in the slices, and the text that it shows.
ghost use Rattle.std.specs.Prelude.{◌≡◌, ◌≤◌, All, length, ◌-◌, ◌<◌, take, ◌+◌, ◌^◌, IsTrue, None};
ghost use Rattle.file_view.specs.Texts.{is_reading};
ghost use Rattle.live_law.specs.SeenJournals.{HasGrown};
ghost use Rattle.live_run.specs.Commands.{LooksAt, FollowsAt, shown_where};
ghost use Rattle.live_run.specs.Names.{history_of, seen_by};
ghost use Rattle.machine.specs.Ranges.{InRange};
ghost use Rattle.rc_base.specs.declared.replies.Reply.TheVariants.{Ok};
ghost use Rattle.rc_base.specs.declared.text_buf.TheConstants.{TEXT_MAX};
ghost use Rattle.run_law.specs.FoundLooks.{AreDistinct};
ghost use Rattle.run_law.specs.Jobs.{jobs_of, looks_of};
ghost use Rattle.run_law.specs.TreeHistory.{tree_after};
ghost use Rattle.tree_core.specs.Follows.{IsReady};
ghost use Rattle.tree_core.specs.Named.{AreNamed};
ghost use Rattle.tree_law.specs.LawsCounts.{CanLook};
ghost use Rattle.tree_law.specs.Steps.{needs, after, follow_domain, refusal};

use crate::around_tree::AroundTree;
use crate::asked_command::AskedCommand;
use crate::run_names::{NamedTable, RunNames};
use crate::thread_side::ThreadSide;
use crate::turn::{CommandFollow, CommandLook, CommandTurn};
use file_view::{is_reading, text};
use rc_base::{LookList, Reply, TextBuf};
use run_law::{TreeEntry, slice_for, slices_for};
use script_ops::Script;
use seen_journal::Journal;
use std::sync::Wait;
use tree_core::{Counts, Tree};
use tree_law::Follow;

/// All looks of a command that holds the tree, in order: for each count one in each slice of its domain.
pub(crate) fn look_all<R: Wait, N: RunNames, T: NamedTable>(
    around: &AroundTree<'_, R, N, T>,
    history: &mut Journal<TreeEntry>,
    side: &mut ThreadSide<N>,
    turn: &CommandTurn<'_>,
    counts: &Counts,
    looks: &mut LookList,
)
    requires script { around.now.script.now ≡ N.script }
    requires range { InRange N.script.machine }
    requires name { history.old.name ≡ N.tree }
    requires whole { side.old.seen.tree.seen ≡ history.old.entries }
    requires epoch { turn.now.epoch ≡ length history.old.entries }
    requires counts { counts.now ≡ needs N.script.machine (tree_after N.script (history_of side.old.seen.tree.seen)) turn.now.op.now }
    requires distinct { AreDistinct counts.now }
    requires exist { All (CanLook N.script.machine) counts.now }
    requires room { length counts.now ≤ looks.old.spare }
    requires at { LooksAt N.script T.table turn.now.number turn.now.op.now 0 0 0 looks.old.numbers side.old.seen side.old.share }
    ensures history { history.new ≡ history.old }
    ensures tree { side.new.seen.tree ≡ side.old.seen.tree }
    ensures thread { side.new.seen.thread ≡ side.old.seen.thread }
    ensures seen { HasGrown (seen_by side.old.seen) (seen_by side.new.seen) }
    ensures done { LooksAt N.script T.table turn.now.number turn.now.op.now (length counts.now) 0 0 looks.new.numbers side.new.seen side.new.share }
{
    let m = around.script.machine();
    for q in 0..counts.len() {
        let (domain, rmid) = counts.at(q);
        let mut lines = 0;
        for x in 0..m.slices {
            let i = m.slice_number(domain, x);
            let look = CommandLook {
                slice: i,
                number: turn.number,
                epoch: turn.epoch,
                rmid,
            };
            lines += around.slices.look(around.rt, history, side, look);
        }
        looks.push(lines);
    }
}

/// All follow-ups of the command that was decided last, in order.
pub(crate) fn follow_all<R: Wait, N: RunNames, T: NamedTable>(
    around: &AroundTree<'_, R, N, T>,
    history: &mut Journal<TreeEntry>,
    side: &mut ThreadSide<N>,
    turn: &CommandTurn<'_>,
    all: &[Follow],
)
    requires script { around.now.script.now ≡ N.script }
    requires range { InRange N.script.machine }
    requires name { history.old.name ≡ N.tree }
    requires whole { side.old.seen.tree.seen ≡ history.old.entries }
    requires epoch { (0 < turn.now.epoch) × (turn.now.epoch ≡ length history.old.entries) }
    requires follows { all.now ≡ after N.script.machine (tree_after N.script (take (turn.now.epoch - 1) (history_of side.old.seen.tree.seen))) (turn.now.epoch - 1) turn.now.op.now }
    requires domains { All (λ f. follow_domain f < N.script.machine.domains) all.now }
    requires ready { All (IsReady N.script.machine) all.now }
    requires at { FollowsAt N.script T.table turn.now.number (turn.now.epoch - 1) turn.now.op.now (length (looks_of N.script (history_of side.old.seen.tree.seen) (turn.now.epoch - 1) turn.now.op.now)) side.old.seen side.old.share }
    ensures history { history.new ≡ history.old }
    ensures tree { side.new.seen.tree ≡ side.old.seen.tree }
    ensures thread { side.new.seen.thread ≡ side.old.seen.thread }
    ensures seen { HasGrown (seen_by side.old.seen) (seen_by side.new.seen) }
    ensures done { FollowsAt N.script T.table turn.now.number (turn.now.epoch - 1) turn.now.op.now (length (jobs_of N.script (history_of side.old.seen.tree.seen) (turn.now.epoch - 1) turn.now.op.now)) side.new.seen side.new.share }
{
    let m = around.script.machine();
    for q in 0..all.len() {
        let follow = all[q];
        let count = slices_for(m, follow);
        for x in 0..count {
            let i = slice_for(m, follow, x);
            let is_last = q + 1 == all.len() && x + 1 == count;
            let step = CommandFollow {
                slice: i,
                number: turn.number,
                epoch: turn.epoch,
                follow,
                is_last,
            };
            around.slices.follow(around.rt, history, side, step);
        }
    }
}

/// Where a text is asked for, that of an accepted read or list takes the place of what was shown. Another command leaves it.
pub(crate) fn show(
    tree: &Tree,
    script: &Script,
    command: &AskedCommand<'_>,
    looks: &[u64],
    reply: Reply,
    shown: &mut TextBuf,
)
    requires machine { tree.now.machine ≡ script.now.machine }
    requires accepted { IsTrue (is_reading command.now.op.now) → reply ≡ Ok → refusal script.now.machine tree.now.state command.now.op.now ≡ None }
    requires looks { IsTrue (is_reading command.now.op.now) → length looks.now ≡ length (needs script.now.machine tree.now.state command.now.op.now) }
    requires counts { All (λ n. n ≤ 2 ^ 32) looks.now }
    requires named { AreNamed script.now.names tree.now.state.groups }
    requires room { TEXT_MAX ≤ shown.old.spare + length shown.old.bytes }
    ensures bytes { shown.new.bytes ≡ shown_where command.now.is_text_asked script.now tree.now.state command.now.op.now looks.now reply shown.old.bytes }
    ensures room { shown.new.spare + length shown.new.bytes ≡ shown.old.spare + length shown.old.bytes }
{
    match reply {
        Reply::Ok if command.is_text_asked && is_reading(command.op) => {
            shown.clear();
            text(tree, script.names(), command.op, looks, shown);
        }
        _ => {}
    }
}
