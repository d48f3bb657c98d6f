//! The script of an input.
ghost use Rattle.std.specs.Prelude.{◌≤◌, IfOk, length};
ghost use Rattle.pair_text.specs.PairReading.{Reads, pair_script_of};
ghost use Rattle.pair_top.specs.Ready.{IsReady};
ghost use Rattle.script_ops.specs.declared.limits.TheConstants.{MOST_SCRIPT_BYTES};

use pair_text::theorems::{scripts_are_bounded, scripts_are_lawful};
use pair_text::{PairError, PairKind, PairScript, read_pair};
use std::alloc::Global;

/// The pair script of a kind that the bytes are, or what is wrong with them. The bytes are let go of.
pub(crate) fn script_in(
    alloc: Global,
    bytes: Vec<u8>,
    kind: PairKind,
) -> Result<PairScript, PairError>
    requires { length bytes.items ≤ MOST_SCRIPT_BYTES }
    ensures said { Reads result (pair_script_of kind bytes.items) }
    ensures ready { IfOk result (IsReady kind) }
{
    scripts_are_lawful();
    scripts_are_bounded();
    read_pair(alloc, &bytes, kind)
}
