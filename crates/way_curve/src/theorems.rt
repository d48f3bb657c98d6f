//! Laws of all curves, proved with empty bodies.
ghost use Rattle.way_curve.specs.Laws.{HitsNeverFall, ItemHitsNeverFall};

/// More ways never mean fewer hits.
pub fn hits_never_fall()
    ensures { HitsNeverFall }
{}

/// So it is where lines are dropped in between.
pub fn item_hits_never_fall()
    ensures { ItemHitsNeverFall }
{}
