//! Laws of the cache that programs share, proved with empty bodies, and the limit of a stream by its number.
ghost use Rattle.std.specs.Prelude.{◌≡◌, ◌^◌};
ghost use Rattle.share_plans.specs.Laws.{LinesKeepSets, LinesStayApart};
ghost use Rattle.share_plans.specs.declared.stream_limits.TheConstants.{MOST_STREAM_BYTES};

/// The lines of different programs are different lines in the cache that all share, and each is in the set of its own number.
pub fn lines_stay_apart()
    ensures apart { LinesStayApart }
    ensures sets { LinesKeepSets }
{}

/// The limit is this number (this project's profile). Every other clause cites it by its name.
pub fn limits_are_stated()
    ensures { MOST_STREAM_BYTES ≡ 2 ^ 42 }
{}
