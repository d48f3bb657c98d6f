//! Spans, taken from one epoch to the next.
ghost use Rattle.std.specs.Prelude.{◌≡◌, Bool, ◌+◌, ◌<◌, ◌^◌, map};
ghost use Rattle.private_lru.specs.Keeping.{span_on};

use crate::span::Span;

/// The state of an epoch, in which something is held or not.
pub trait HoldsAt<H> {
    /// What the test needs of the state.
    ghost CanTell: { Self → Type 0 };

    /// Whether something is held in the state.
    ghost holds: { Self → H → Bool };

    /// Whether something is held in the state.
    fn holds(&self, held: &H) -> bool
        requires { CanTell self.now }
        ensures { result ≡ holds self.now held.now };
}

// A span, one epoch later, in whose state it goes on or not.
fn kept_on<H: Copy + Drop, S: HoldsAt<H>>(span: Span<H>, state: &S, epoch: u64) -> Span<H>
    requires can { S.CanTell state.now }
    requires epoch { epoch + 1 < 2 ^ 64 }
    ensures { result ≡ span_on (S.holds state.now) epoch span }
{
    if span.last == epoch && state.holds(&span.held) {
        return Span {
            held: span.held,
            last: epoch + 1,
        };
    }
    span
}

/// Takes spans from an epoch to the next one, whose state this is.
pub fn keep_on<H: Copy + Drop, S: HoldsAt<H>>(spans: &mut Vec<Span<H>>, state: &S, epoch: u64)
    requires can { S.CanTell state.now }
    requires epoch { epoch + 1 < 2 ^ 64 }
    ensures { spans.new.items ≡ map (span_on (S.holds state.now) epoch) spans.old.items }
{
    for i in 0..spans.len() {
        spans[i] = kept_on(spans[i], state, epoch);
    }
}
