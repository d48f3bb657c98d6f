//! The machine of steps, as a state that threads share.
ghost use Rattle.schedule_law.specs.LiveParts.{after, first, reached, shown};
ghost use Rattle.script_ops.specs.Values.{ScriptValue};

use crate::part::{Happening, Part};
use shared_parts::Machine;
use std::marker::PhantomData;

/// Names the script of a run.
pub trait NamedScript {
    /// The script.
    ghost script: { ScriptValue };
}

/// The machine of steps of a script.
pub struct MachineOf<N> {
    of: PhantomData<N>,
}

impl<N: NamedScript> Machine<Happening, Part> for MachineOf<N> {
    ghost use Rattle.schedule_law.specs.LiveParts.{after, first, reached, shown};

    ghost reached = { reached N.script };

    ghost after = { after };

    ghost first = { first N.script };

    ghost shown = { shown };
}
