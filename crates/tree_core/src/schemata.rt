//! What a written schemata text says.
ghost use Rattle.std.specs.Prelude.{◌≡◌, IfOk};
ghost use Rattle.machine.specs.Maps.{parameters_of};
ghost use Rattle.schemata_text.specs.Reading.{AreLawful, Gives};
ghost use Rattle.tree_law.specs.commands.Schemata.{names_many, schemata_read};
ghost use Rattle.tree_law.specs.Space.{geometry_of};

use machine::Machine;
use num_text::trim;
use rc_base::Mode;
use schemata_text::{Assignment, Assignments, TextFault, read};

/// The assignments of a text, or its first fault.
#[tactic(auto, unfolding(tree_law::specs::commands::Schemata::schemata_read))]
pub(crate) fn read_schemata(m: &Machine, text: &[u8]) -> Result<Assignments, TextFault>
    ensures exact { Gives (λ v. v.items) result (schemata_read (parameters_of m.now) text.now) }
    ensures lawful { IfOk result (λ v. AreLawful (geometry_of (parameters_of m.now)) m.now.domains v.items) }
{
    read(trim(text), &m.geometry(), m.domains)
}

/// Whether more than one domain is named for a group in pseudo-locksetup, which takes one.
pub(crate) fn names_many(mode: Mode, all: &[Assignment]) -> bool
    ensures { result ≡ names_many mode all.now }
{
    match mode {
        Mode::LockSetup => all.len() > 1,
        Mode::Shareable | Mode::Exclusive | Mode::Locked => false,
    }
}
