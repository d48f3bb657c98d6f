//! A write of `mode`.
ghost use Rattle.std.specs.Prelude.{◌≡◌, ◌<◌, length};
ghost use Rattle.std.specs.Option.{option_map};
ghost use Rattle.command_parts.specs.Replies.{reply_to};
ghost use Rattle.pair_law.specs.Sound.{IsSound};
ghost use Rattle.pair_law.specs.commands.Mode as mode;
ghost use Rattle.pair_law.specs.commands.Mode.{against_mode, mode_in};
ghost use Rattle.pair_tree.specs.Changes.{AsksMode, MakesUnless};
ghost use Rattle.pair_tree.specs.Places.{At};
ghost use Rattle.pair_tree.specs.Tables.{state_of};

use crate::machines::Machines;
use crate::tables::Tables;
use command_parts::is_named;
use pair_text::PairGroup;
use rc_base::{Mode, Reply, Why};

// The mode that a text asks for, and None where it is the name of none that may be written.
#[tactic(auto, unfolding(pair_law::specs::commands::Mode::mode_in))]
fn mode_in(text: &[u8]) -> Option<Mode>
    ensures { result ≡ mode_in text.now }
{
    if is_named(text, Mode::Shareable) {
        Some(Mode::Shareable)
    } else if is_named(text, Mode::Exclusive) {
        Some(Mode::Exclusive)
    } else {
        None
    }
}

impl Tables {
    // What is against turning a group to the mode that a text asks for.
    fn against_turn(&self, m: &Machines, g: &PairGroup, asked: Option<Mode>) -> Option<Reply>
        ensures { result ≡ option_map reply_to (against_mode m.now (state_of self.now) g.now asked) }
    {
        match asked {
            Some(Mode::Exclusive) => {
                if self.overlaps_some(m, g) {
                    Some(Reply::refused(Why::SchemataOverlap, 0))
                } else {
                    None
                }
            }
            Some(Mode::Shareable | Mode::LockSetup | Mode::Locked) => None,
            None => Some(Reply::refused(Why::UnknownMode, 0)),
        }
    }

    // What a text asks of a group: to turn to another mode, or to stay as it is. An error is why it is refused.
    fn asked_mode(&self, m: &Machines, g: &PairGroup, text: &[u8]) -> Result<Option<Mode>, Reply>
        ensures { AsksMode m.now (state_of self.now) g.now text.now result }
    {
        if is_named(text, g.mode) {
            return Ok(None);
        }
        let asked = mode_in(text);
        match self.against_turn(m, g, asked) {
            Some(reply) => Err(reply),
            None => Ok(asked),
        }
    }

    /// Writes the mode of the group at a place.
    pub(crate) fn write_mode(&mut self, m: &Machines, place: usize, text: &[u8]) -> Reply
        requires sound { IsSound m.now (state_of self.old) }
        requires within { place < length self.old.groups.items }
        ensures { At self.old.groups.items place (λ g.
            MakesUnless (state_of self.old) (mode.refusal m.now (state_of self.old) g text.now)
            (mode.accepted (state_of self.old) g text.now) (state_of self.new) result) }
    {
        match self.asked_mode(m, &self.groups[place], text) {
            Ok(Some(mode)) => {
                let g = &mut self.groups[place];
                g.mode = mode;
                Reply::Ok
            }
            Ok(None) => Reply::Ok,
            Err(reply) => reply,
        }
    }
}
