//! What a written mode says.
ghost use Rattle.std.specs.Prelude.{◌≡◌};
ghost use Rattle.tree_law.specs.commands.Mode.{mode_in};
ghost use Rattle.tree_law.specs.commands.Schemata.{is_locked};

use command_parts::is_named;
use rc_base::Mode;

/// The mode that a text asks for, and None where it is the name of none that may be written.
#[tactic(auto, unfolding(tree_law::specs::commands::Mode::mode_in))]
pub(crate) fn mode_in(text: &[u8]) -> Option<Mode>
    ensures { result ≡ mode_in text.now }
{
    if is_named(text, Mode::Shareable) {
        Some(Mode::Shareable)
    } else if is_named(text, Mode::Exclusive) {
        Some(Mode::Exclusive)
    } else if is_named(text, Mode::LockSetup) {
        Some(Mode::LockSetup)
    } else {
        None
    }
}

/// Whether a mode is that of a pseudo-locked group.
pub(crate) fn is_locked(mode: Mode) -> bool
    ensures { result ≡ is_locked mode }
{
    match mode {
        Mode::Locked => true,
        Mode::Shareable | Mode::Exclusive | Mode::LockSetup => false,
    }
}
