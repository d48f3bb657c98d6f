//! The caches of each level, and the L3 domains that L2 domains lie in.
ghost use Rattle.std.specs.Prelude.{◌≡◌};
ghost use Rattle.machine.specs.Maps.{parameters_of};
ghost use Rattle.pair_text.specs.Values.{AreMachines, side_machine};
ghost use Rattle.pair_text.specs.declared.side.Side.TheVariants.{First};
ghost use Rattle.pair_law.specs.JointWindows.{domain_above};

use machine::Machine;
use pair_text::{PairScript, Side};

/// The machine whose caches are those of a level: the L2 caches are the first side, where there are some.
pub fn machine_on(script: &PairScript, side: Side) -> &Machine
    ensures { parameters_of result.now ≡ side_machine script.now.machines side }
{
    match side {
        Side::First => script.l2().unwrap_or(script.machine()),
        Side::Second => script.machine(),
    }
}

/// How many L2 domains there are.
pub(crate) fn l2_domains(script: &PairScript) -> u8
    ensures { result ≡ (side_machine script.now.machines First).domains }
{
    match script.l2() {
        Some(l2) => l2.domains,
        None => script.machine().domains,
    }
}

/// The L3 domain that an L2 domain lies in.
pub(crate) fn domain_above(script: &PairScript, x: u8) -> u8
    requires { AreMachines script.now.machines }
    ensures { result ≡ domain_above script.now.machines x }
{
    let share = l2_domains(script) / script.machine().domains;
    x / share
}
