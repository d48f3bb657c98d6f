//! Commands and uses.
ghost use Rattle.std.specs.Prelude.{◌≡◌};
ghost use Rattle.pair_text.specs.Values.{is_command};

use pair_text::PairOp;

/// Whether an op is a command, and not the use of a line.
pub fn is_command(op: &PairOp) -> bool
    ensures { result ≡ is_command op.now }
{
    !matches!(op, PairOp::Use { .. })
}
