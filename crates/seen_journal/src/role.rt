//! Whose a seat is.

/// Whose a seat of a journal's table is: the journal's own, a pass's, or a note's.
pub enum Role {
    Own,
    Pass,
    Note,
}
