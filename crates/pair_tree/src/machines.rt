//! The caches of the two sides.
ghost use Rattle.std.specs.Prelude.{◌≡◌};
ghost use Rattle.machine.specs.Maps.{parameters_of};
ghost use Rattle.pair_text.specs.Values.{side_machine};

use cbm::Geometry;
use machine::Machine;
use pair_text::{PairScript, Side};
use std::marker::Model;

/// The machine, and the L2 caches where the masks are those of two levels. Without an L2 both sides have the machine's caches.
#[derive(Drop)]
pub(crate) struct Machines {
    machine: Machine,
    l2: Option<Machine>,
}

impl Model for Machines {
    ghost use Rattle.pair_text.specs.Values.{Machines as Seen};
    ghost use Rattle.pair_text.specs.PairKeys.{machines_seen};

    ghost Value = { Seen };

    ghost view = { λ m. machines_seen m.machine m.l2 };
}

impl Machines {
    ghost use Rattle.std.specs.Prelude.{◌≡◌, ◌<◌, ◌≤◌, is_some};
    ghost use Rattle.machine.specs.Maps.{parameters_of};
    ghost use Rattle.pair_text.specs.Values.{AreMachines, class_count, side_machine};
    ghost use Rattle.pair_tree.specs.Tags.{domain_on};
    ghost use Rattle.tree_law.specs.Space.{geometry_of};

    /// The caches of a script.
    pub(crate) fn of(script: &PairScript) -> Machines
        ensures { result ≡ script.now.machines }
    {
        Machines {
            machine: *script.machine(),
            l2: script.l2().copied(),
        }
    }

    /// Whether the sides are two levels, an L2 and an L3, and not data and code in the same caches.
    pub(crate) fn are_levels(&self) -> bool
        ensures { result ≡ is_some self.now.l2 }
    {
        self.l2.is_some()
    }

    /// The caches of a side.
    pub(crate) fn side(&self, side: Side) -> &Machine
        ensures { parameters_of result.now ≡ side_machine self.now side }
    {
        match (side, &self.l2) {
            (Side::First, Some(l2)) => l2,
            _ => &self.machine,
        }
    }

    /// How many domains a side has.
    pub(crate) fn domains(&self, side: Side) -> u8
        ensures domains { result ≡ (side_machine self.now side).domains }
        ensures few { result ≤ 8 }
    {
        self.side(side).domains
    }

    /// What the masks of a side may be.
    pub(crate) fn geometry(&self, side: Side) -> Geometry
        ensures geometry { result ≡ geometry_of (side_machine self.now side) }
        ensures few { result.len ≤ 32 }
    {
        self.side(side).geometry()
    }

    /// How many classes there are. With code and data prioritization each takes two of the machine's (Intel SDM volume 3, code and data
    /// prioritization).
    pub(crate) fn class_count(&self) -> u8
        ensures count { result ≡ class_count self.now }
        ensures few { result ≤ 64 }
    {
        match &self.l2 {
            Some(_) => self.machine.classes,
            None => self.machine.classes / 2,
        }
    }

    /// The domain of a CPU on a side.
    pub(crate) fn domain_of(&self, side: Side, cpu: u8) -> u8
        requires machines { AreMachines self.now }
        requires cpu { cpu < self.now.machine.cpus }
        ensures domain { result ≡ domain_on self.now side cpu }
        ensures few { result < 8 }
    {
        self.side(side).domain_of(cpu)
    }
}
