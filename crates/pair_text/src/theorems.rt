//! Laws of the reading, each proved with an empty body.
ghost use Rattle.std.specs.Prelude.{◌≡◌};
ghost use Rattle.pair_text.specs.PairLaws.{ScriptsAreLawful, ScriptsAreWithinLimits, ScriptsHaveTheirKind};
ghost use Rattle.pair_text.specs.declared.limits.TheConstants.{MOST_COMMANDS, MOST_USES};

/// A text that is a pair script is a lawful one.
pub fn scripts_are_lawful()
    ensures { ScriptsAreLawful }
{}

/// A text that is a pair script is one of its kind, with no more commands and uses than a script has at most.
pub fn scripts_are_bounded()
    ensures kinds { ScriptsHaveTheirKind }
    ensures limits { ScriptsAreWithinLimits }
{}

/// The limits are these numbers (this project's profile). Every other clause cites a limit by its name.
pub fn limits_are_stated()
    ensures commands { MOST_COMMANDS ≡ 20000 }
    ensures uses { MOST_USES ≡ 2000000 }
{}
