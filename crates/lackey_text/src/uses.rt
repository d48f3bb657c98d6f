//! The lines of memory that a line of a trace uses.
ghost use Rattle.std.specs.Prelude.{◌≡◌, ◌<◌, ◌+◌, ◌≤◌};
ghost use Rattle.std.specs.Iterator.{YieldsFirst, item_count};
ghost use Rattle.lackey_text.specs.declared.limits.TheConstants.{MEMORY_BYTES};
ghost use Rattle.lackey_text.specs.Lines.{IsInMemory};
ghost use Rattle.lackey_text.specs.Uses.{uses_by, uses_left, uses_of};

use crate::line::{LackeyKind, LackeyLine};

// How many bytes a line of memory has.
const LINE_BYTES: u64 = 64;

/// The use of one line of memory.
#[derive(Clone, Copy, Debug, PartialEq, Eq)]
pub struct LineUse {
    /// The number of the line: the address of its first byte, divided by 64.
    pub line: u64,
    /// Whether it is used as code, and not as data.
    pub code: bool,
}

/// The uses of lines of memory that are left of a line of a trace, in order.
#[derive(Clone, Debug, Drop, PartialEq, Eq)]
pub struct LineUses {
    first: u64,
    next: u64,
    end: u64,
    code: bool,
    again: bool,
}

impl Iterator for LineUses {
    type Item = LineUse;

    ghost next_gives = { YieldsFirst uses_left };

    ghost remaining = { item_count uses_left };

    #[tactic(auto, using(crate::proofs::Spans::spans))]
    fn next(&mut self) -> Option<LineUse> {
        if self.next >= self.end && self.again {
            self.again = false;
            self.next = self.first;
        }
        if self.next >= self.end {
            return None;
        }
        let line = self.next;
        self.next += 1;
        Some(LineUse {
            line,
            code: self.code,
        })
    }
}

impl LackeyLine {
    /// The lines of memory that are used, rising from that of the first byte to that of the last. Data that is modified uses
    /// them twice, first all to load and then all to store.
    pub fn uses(&self) -> LineUses
        requires { IsInMemory self.now }
        ensures { uses_left result ≡ uses_of self.now }
    {
        match *self {
            LackeyLine::Skip => LineUses {
                first: 0,
                next: 0,
                end: 0,
                code: false,
                again: false,
            },
            LackeyLine::Use { kind, addr, size } => uses_by(kind, addr, size),
        }
    }
}

// The uses of lines by bytes from an address on.
fn uses_by(kind: LackeyKind, addr: u64, size: u32) -> LineUses
    requires some { 0 < size }
    requires memory { addr + size ≤ MEMORY_BYTES }
    ensures { uses_left result ≡ uses_by kind addr size }
{
    let first = addr / LINE_BYTES;
    let last = (addr + u64::from(size) - 1) / LINE_BYTES;
    LineUses {
        first,
        next: first,
        end: last + 1,
        code: matches!(kind, LackeyKind::Code),
        again: matches!(kind, LackeyKind::Modify),
    }
}
