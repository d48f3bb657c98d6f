//! What holds of first lines, by the number of the region, and how many regions there are at most.
ghost use Rattle.std.specs.Prelude.{◌≡◌};
ghost use Rattle.pseudo_lock.specs.declared.regions.TheConstants.{DOMAINS, MAX_PLACED};
ghost use Rattle.pseudo_lock.specs.FirstLines.{LinesAreApart, FirstLinesAreLow, FirstLinesAreWhole};

/// The first lines of regions, by the numbers of the regions: no line is of two regions, a region begins at set 0 of
/// every machine, and the lines of all regions that may be placed are below 2^60.
pub fn first_lines()
    ensures apart { LinesAreApart }
    ensures whole { FirstLinesAreWhole }
    ensures low { FirstLinesAreLow }
{}

/// The limits are these numbers (this project's profile). Every other clause cites a limit by its name.
pub fn limits_are_stated()
    ensures domains { DOMAINS ≡ 8 }
    ensures placed { MAX_PLACED ≡ 4_000_000 }
{}
