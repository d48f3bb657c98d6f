//! Whether two replies are the same.
ghost use Rattle.std.specs.Prelude.{◌≡◌, ◌↔◌, IsTrue};

use rc_base::{Errno, Reply, Why};

// Whether two reasons are the same.
fn is_same_why(why: Why, other: Why) -> bool
    ensures { IsTrue result ↔ (why ≡ other) }
{
    why == other
}

// Whether two errors are the same.
fn is_same_errno(errno: Errno, other: Errno) -> bool
    ensures { IsTrue result ↔ (errno ≡ other) }
{
    errno == other
}

/// Whether two replies are the same.
pub(crate) fn is_same_reply(reply: Reply, other: Reply) -> bool
    ensures { IsTrue result → reply ≡ other }
{
    match (reply, other) {
        (Reply::Ok, Reply::Ok) => true,
        (
            Reply::Refused { errno, why, arg },
            Reply::Refused {
                errno: other_errno,
                why: other_why,
                arg: other_arg,
            },
        ) => is_same_errno(errno, other_errno) && is_same_why(why, other_why) && arg == other_arg,
        _ => false,
    }
}
