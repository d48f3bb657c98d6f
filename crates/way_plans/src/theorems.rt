//! The limit of a curve by its number.
ghost use Rattle.std.specs.Prelude.{◌≡◌, ◌^◌};
ghost use Rattle.way_plans.specs.declared.limits.TheConstants.{MOST_USES};

/// The limit is this number (this project's profile). Every other clause cites it by its name.
pub fn limit_is_stated()
    ensures { MOST_USES ≡ 2 ^ 36 }
{}
