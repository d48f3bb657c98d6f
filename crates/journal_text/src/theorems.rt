//! Laws of the texts of journals.
ghost use Rattle.journal_text.specs.Laws.{BadLinesAreOne, TextsAreOfOneValue, TextsReadBack};

/// Journals that have the same text are the same, and the text of journals reads back as these, if memory suffices.
pub fn texts_read_back()
    ensures one { TextsAreOfOneValue }
    ensures back { TextsReadBack }
{}

/// The bad line of a text that holds no journals is one.
pub fn bad_lines_are_one()
    ensures { BadLinesAreOne }
{}
