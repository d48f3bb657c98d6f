//! Counts of lines.
ghost use Rattle.std.specs.Prelude.{◌≡◌};
ghost use Rattle.tree_law.specs.Freeing.{greatest};

/// The greatest of these counts, and 0 where there is none.
pub(crate) fn greatest(looks: &[u64]) -> u64
    ensures { result ≡ greatest looks.now }
{
    let mut most = 0;
    for lines in looks {
        most = most.max(*lines);
    }
    most
}
