//! The file `last_cmd_status`.
ghost use Rattle.std.specs.Prelude.{◌≡◌, ◌+◌, ◌<◌, ◌≤◌, ◌++◌, length};
ghost use Rattle.file_view.specs.MachineFiles.{status_of, status_text};

use crate::reasons::{REASON_MAX, reason};
use rc_base::{Reply, TextBuf};
use tree_core::Tree;

// Adds `ok`, or the text of the reason.
fn push_reply(reply: Reply, out: &mut TextBuf)
    requires room { REASON_MAX ≤ out.old.spare }
    ensures bytes { out.new.bytes ≡ out.old.bytes ++ status_of reply }
    ensures spare { out.new.spare + length (status_of reply) ≡ out.old.spare }
    ensures short { length (status_of reply) < REASON_MAX }
{
    match reply {
        Reply::Ok => out.push_all(b"ok".as_slice()),
        Reply::Refused { why, arg, .. } => reason(why, arg, out),
    }
}

/// Adds what the last `mkdir` or write was answered, on its line.
pub(crate) fn push_status(tree: &Tree, out: &mut TextBuf)
    requires room { REASON_MAX ≤ out.old.spare }
    ensures bytes { out.new.bytes ≡ out.old.bytes ++ status_text tree.now.state }
    ensures spare { out.new.spare + length (status_text tree.now.state) ≡ out.old.spare }
{
    push_reply(tree.status(), out);
    out.push(b'\n');
}
