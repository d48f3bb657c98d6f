//! The lines of all ways of a slice, and the greatest of them.
ghost use Rattle.std.specs.Prelude.{◌≡◌, ◌≢◌, ℕ, ◌+◌, ◌*◌, ◌<◌, ◌≤◌, length, IfOk, false, replicate, slice_index, slice_set};

use rc_base::NoMemory;
use std::alloc::Global;
use std::marker::Model;

/// The line of each way of a slice, the ways of each set one after the other. Contracts see the list of them. A line above the
/// greatest that ever came is in no way, so that a stream of new lines is not searched for.
#[derive(Drop)]
pub struct LineTable {
    lines: Vec<u64>,
    greatest: u64,
}

impl Model for LineTable {
    ghost use Rattle.std.specs.Prelude.{ℕ, List, ◌≤◌, slice_index};

    ghost Value = { List ℕ };

    ghost view = { λ t. t.lines.items };

    ghost invariant = { λ t. (i : ℕ) → slice_index t.lines.items i ≤ t.greatest };
}

impl LineTable {
    /// So many ways, each with line 0.
    pub fn create(alloc: Global, ways: usize) -> Result<LineTable, NoMemory>
        ensures { IfOk result (λ t. length t ≡ ways) }
    {
        let lines = vec![in alloc; 0; ways]?;
        Ok(LineTable { lines, greatest: 0 })
    }

    /// Whether some way may have this line.
    pub fn may_have(&self, line: u64) -> bool
        ensures { result ≡ false → (i : ℕ) → slice_index self.now i ≢ line }
    {
        line <= self.greatest
    }

    /// The lines.
    pub fn lines(&self) -> &[u64]
        ensures { result.now ≡ self.now }
    {
        self.lines.as_slice()
    }

    /// Puts a line in a way.
    pub fn put(&mut self, at: usize, line: u64)
        requires { at < length self.old }
        ensures { self.new ≡ slice_set self.old at line }
    {
        self.lines[at] = line;
        self.greatest = self.greatest.max(line);
    }
}
