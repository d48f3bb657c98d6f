//! A machine: which states are reached, and what events do.
ghost use Rattle.std.specs.Prelude.{ℕ, List};

/// A machine whose state has numbered parts: which states can be reached, each given by the values of its parts, and what an
/// event of type `E` makes of a part of type `P`. It has no value: only proofs see its states.
pub trait Machine<E, P> {
    /// The state with these values of its parts can be reached.
    ghost reached: { (ℕ → P) → Type 0 };

    /// What an event makes of the part with this number and this value.
    ghost after: { E → ℕ → P → P };

    /// The parts of the first share, each with its number and its value at the start.
    ghost first: { List (ℕ × P) };

    /// The number that the first word of the table shows of part 0, to every thread. It is 0 at the start.
    ghost shown: { P → ℕ };
}
