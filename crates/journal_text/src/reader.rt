//! A reader of the lines of journals.
ghost use Rattle.std.specs.Prelude.{◌≡◌, ◌+◌, ◌<◌, ◌^◌};
ghost use Rattle.journal_text.specs.Endings.{Finishes};
ghost use Rattle.journal_text.specs.declared.line_position.LinePosition.TheVariants.{Start};

use crate::fault::ReadError;
use crate::keeper::Keeper;
use crate::line_position::LinePosition;

/// Where a text of journals stands, and what was kept of its lines.
#[derive(Drop)]
pub(crate) struct Reader<K: Drop> {
    pub(crate) position: LinePosition,
    pub(crate) keeper: K,
}

impl<K: Keeper + Drop> Reader<K> {
    /// Before the first line. It takes no memory.
    pub(crate) fn create(keeper: K) -> Reader<K>
        ensures position { result.position ≡ Start }
        ensures keeper { result.keeper ≡ keeper }
    {
        Reader {
            position: LinePosition::Start,
            keeper,
        }
    }

    /// What was kept, where so many lines were the whole text; or the line after these, where the text is unfinished or goes on.
    pub(crate) fn finish(self, lines: u32, left: &[u8]) -> Result<K, ReadError>
        requires { lines + 1 < 2 ^ 32 }
        ensures { Finishes self.keeper self.position lines left.now result }
    {
        let Reader { position, keeper } = self;
        if position == LinePosition::Over && left.is_empty() {
            Ok(keeper)
        } else {
            Err(ReadError::Bad { line: lines + 1 })
        }
    }
}
