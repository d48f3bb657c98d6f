//! The room of a reason's text by its number.
ghost use Rattle.std.specs.Prelude.{◌≡◌};
ghost use Rattle.file_view.specs.declared.reasons.TheConstants.{REASON_MAX};

/// The room of a reason's text is this number (this project's profile). Every other clause cites it by its name.
pub fn limits_are_stated()
    ensures { REASON_MAX ≡ 128 }
{}
