//! In which orders groups lie.

/// In which orders the groups lie in the divisions among which one is the best.
#[derive(Clone, Copy, Debug, PartialEq, Eq)]
pub enum Order {
    /// In every order.
    Any,
    /// In order of creation, from way 0 up.
    Creation,
}
