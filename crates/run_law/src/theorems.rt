//! The law of runs by its clauses, and the law of rooms.

ghost use Rattle.run_law.specs.Clauses.{RunsByClauses};
ghost use Rattle.run_law.specs.Rooms.{CountsAreWithinWeight, RoomsAreBounded, RoomsAreWithinWeight};

/// Journals that have a list for each slice are a run exactly where they meet all clauses.
pub fn runs_by_clauses()
    ensures { RunsByClauses }
{}

/// The rooms of all journals of a script are together at most its weight, and so at most the greatest weight; and so are the
/// counts that its commands can need.
pub fn rooms_are_within_weight()
    ensures weight { RoomsAreWithinWeight }
    ensures bounded { RoomsAreBounded }
    ensures counts { CountsAreWithinWeight }
{}
