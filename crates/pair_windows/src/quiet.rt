//! Scripts of which no command asks that a group be exclusive.
ghost use Rattle.std.specs.Prelude.{◌≡◌};
ghost use Rattle.std.specs.List.{list_any};
ghost use Rattle.pair_windows.specs.Quiet.{asks_exclusive, is_exclusive_text};

use command_parts::is_named;
use pair_text::{PairOp, PairScript};
use path_names::FileKind;
use rc_base::Mode;

// Whether a text that is written to a file of this kind asks for the mode exclusive.
fn is_exclusive_text(kind: FileKind, text: &[u8]) -> bool
    ensures { result ≡ is_exclusive_text kind text.now }
{
    match kind {
        FileKind::Mode => is_named(text, Mode::Exclusive),
        _ => false,
    }
}

// Whether an op asks that a group be exclusive.
fn asks_exclusive(op: &PairOp) -> bool
    ensures { result ≡ asks_exclusive op.now }
{
    match op {
        PairOp::Write { file, text } => is_exclusive_text(file.kind, text.as_slice()),
        _ => false,
    }
}

/// Whether an op of a script asks that a group be exclusive. Where none does, no group ever is.
pub(crate) fn has_exclusive_write(script: &PairScript) -> bool
    ensures { result ≡ list_any asks_exclusive script.now.ops }
{
    script.ops().iter().any(|op| asks_exclusive(op))
}
