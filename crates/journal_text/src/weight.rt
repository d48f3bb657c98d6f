//! What a script weighs.
ghost use Rattle.std.specs.Prelude.{◌≡◌, ◌≤◌, ◌^◌};
ghost use Rattle.machine.specs.Maps.{parameters_of};
ghost use Rattle.script_ops.specs.Values.{IsLawful, total_weight};
ghost use Rattle.script_ops.specs.Weights.{weights_of};
ghost use Rattle.script_ops.specs.declared.limits.TheConstants.{MOST_WEIGHT};

use machine::Machine;
use script_ops::{Ops, Script, weight_of};

// What the ops of a thread weigh together.
fn ops_weight(m: &Machine, ops: &Ops) -> u64
    requires { weights_of (parameters_of m.now) ops.now ≤ MOST_WEIGHT }
    ensures { result ≡ weights_of (parameters_of m.now) ops.now }
{
    let mut weight: u64 = 0;
    for i in 0..ops.len() {
        let op = ops.at(i);
        weight += weight_of(m, op.get());
    }
    weight
}

/// What all ops of a script weigh together, at most `MOST_WEIGHT`. No list of its journals is longer than that (this project's profile).
pub(crate) fn script_weight(script: &Script) -> u64
    ensures weight { result ≡ total_weight script.now }
    ensures light { result ≤ MOST_WEIGHT }

    // The rules of every script.
    ensures lawful { IsLawful script.now }
{
    let mut weight: u64 = 0;
    for t in 0..script.threads() {
        weight += ops_weight(script.machine(), script.ops(t));
    }
    weight
}
