//! Draws: a linear congruential generator of 31 bits.
ghost use Rattle.std.specs.Prelude.{◌≡◌};
ghost use Rattle.trace_gen.specs.Draws.{next_number, drawn_from};

const FACTOR: u64 = 1_103_515_245;

const INCREMENT: u64 = 12_345;

const MODULUS: u64 = 1 << 31;

// The low eight bits of a number, which repeat soon, are not drawn.
const UNDRAWN: u32 = 256;

/// Draws from a row of numbers, each of which gives the next.
#[derive(Drop)]
pub(crate) struct Draws {
    last: u32,
}

impl Draws {
    /// The draws from the numbers after this one.
    pub(crate) fn after(first: u32) -> Draws
        ensures { result.last ≡ first }
    {
        Draws { last: first }
    }

    /// The next draw.
    pub(crate) fn draw(&mut self) -> u32
        ensures last { self.new.last ≡ next_number self.old.last }
        ensures drawn { result ≡ drawn_from self.new.last }
    {
        let next = (u64::from(self.last) * FACTOR + INCREMENT) % MODULUS;
        self.last = next as u32;
        self.last / UNDRAWN
    }
}
