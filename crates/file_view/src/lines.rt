//! Names on their lines.
ghost use Rattle.std.specs.Prelude.{◌≡◌, ◌+◌, ◌<◌, ◌++◌, length};
ghost use Rattle.file_view.specs.Lines.{on_line};

use path_names::MOST_NAME_BYTES;
use rc_base::TextBuf;

/// How many bytes a name of a path's component and its newline have at most.
pub(crate) const LINE_MAX: usize = MOST_NAME_BYTES + 1;

/// Adds a name on its line.
pub(crate) fn push_name(out: &mut TextBuf, name: &[u8])
    requires room { length name.now < out.old.spare }
    ensures bytes { out.new.bytes ≡ out.old.bytes ++ on_line name.now }
    ensures spare { out.new.spare + length (on_line name.now) ≡ out.old.spare }
{
    out.push_all(name);
    out.push(b'\n');
}
