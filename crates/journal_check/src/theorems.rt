//! A law of histories of the tree.
ghost use Rattle.journal_check.specs.ExpectedCommands.{UnexpectedCommandsFail};

/// A history of the tree with a command that is none of the script, that stands there before, or that was given more counts than it
/// can need, is not legal, or a command of the script does not stand in it once. So of what follows such an entry only the commands
/// have to be counted.
pub fn unexpected_commands_fail()
    ensures { UnexpectedCommandsFail }
{}
