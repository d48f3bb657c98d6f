//! The room of a text by its number.
ghost use Rattle.std.specs.Prelude.{◌≡◌};
ghost use Rattle.rc_base.specs.declared.text_buf.TheConstants.{TEXT_MAX};

/// The room of a text is this number (this project's profile). Every other clause cites it by its name.
pub fn limits_are_stated()
    ensures { TEXT_MAX ≡ 131_072 }
{}
