//! The text of each reason.
ghost use Rattle.std.specs.Prelude.{◌≡◌};
ghost use Rattle.rc_base.specs.Reasons.{after_of, argument_of, before_of};

use crate::replies::Why;

/// How the argument of a reason is written.
#[derive(Clone, Copy, Debug, PartialEq, Eq)]
pub enum Argument {
    /// Not at all.
    Absent,
    /// In decimal.
    Decimal,
    /// In hexadecimal, in lower case and without leading zeros.
    Hexadecimal,
}

/// The text of a reason: the words before its argument, the argument, and the words after it.
#[derive(Clone, Copy)]
pub struct Wording {
    pub before: &'static str,
    pub argument: Argument,
    pub after: &'static str,
}

impl Why {
    /// How this reason is told (this project's profile; nothing is said of how a kernel words it).
    pub fn wording(self) -> Wording
        ensures before { result.before.now ≡ before_of self }
        ensures argument { result.argument ≡ argument_of self }
        ensures after { result.after.now ≡ after_of self }
    {
        Wording {
            before: words_before(self),
            argument: argument_in(self),
            after: words_after(self),
        }
    }
}

// The words before the argument, or the whole text.
fn words_before(why: Why) -> &'static str
    ensures { result.now ≡ before_of why }
{
    match why {
        Why::NoSuchPath => "no such file or directory",
        Why::NotAPlace => "not a place for groups",
        Why::Exists => "file exists",
        Why::OnlyRead => "file is read-only",
        Why::OutOfClosids => "out of CLOSIDs",
        Why::NoSpace => "no space on L3:",
        Why::OutOfRmids => "out of RMIDs",
        Why::RmidsBusy => "RMIDs are in limbo",
        Why::NoTask => "no task ",
        Why::NoColon => "missing ':'",
        Why::BadResource => "unknown resource name",
        Why::NoValue => "missing 'L3' value",
        Why::NoEquals => "missing '='",
        Why::BadDomain => "unknown domain",
        Why::DomainTwice => "duplicate domain ",
        Why::NotHex => "mask is not a hexadecimal number",
        Why::OutOfRange => "mask ",
        Why::Gaps => "mask ",
        Why::TooFew => "mask ",
        Why::OverlapExclusive => "overlaps with exclusive group",
        Why::OverlapRegion => "overlaps with pseudo-locked region",
        Why::OverlapOther => "overlaps with other group",
        Why::OverlapShareable => "overlaps with shareable bits",
        Why::SchemataOverlap => "schemata overlaps",
        Why::UnknownMode => "unknown or unsupported mode",
        Why::GroupLocked => "group is pseudo-locked",
        Why::Locking => "pseudo-locking in progress",
        Why::DefaultGroup => "default group cannot be pseudo-locked",
        Why::HasTasks => "tasks assigned to group",
        Why::HasCpus => "CPUs assigned to group",
        Why::HasMonGroups => "monitor groups present",
        Why::OtherControl => "task ",
        Why::BadTaskList => "task list is not numbers",
        Why::BadCpus => "CPU text has no reading",
        Why::NotACpu => "no CPU ",
        Why::DropsDefault => "cannot drop CPUs from default group",
        Why::NotParents => "CPUs not in the parent group",
        Why::BadThreshold => "threshold out of range",
        Why::OneDomain => "a region has one domain",
        Why::HasRegion => "domain ",
        Why::PastRegion => "offset past the region",
        Why::WrongCpu => "CPU not in the domain of the region",
    }
}

// How the argument is written.
fn argument_in(why: Why) -> Argument
    ensures { result ≡ argument_of why }
{
    match why {
        Why::NoSpace
        | Why::NoTask
        | Why::DomainTwice
        | Why::OtherControl
        | Why::NotACpu
        | Why::HasRegion => Argument::Decimal,
        Why::OutOfRange | Why::Gaps | Why::TooFew => Argument::Hexadecimal,
        _ => Argument::Absent,
    }
}

// The words after the argument.
fn words_after(why: Why) -> &'static str
    ensures { result.now ≡ after_of why }
{
    match why {
        Why::OutOfRange => " out of range",
        Why::Gaps => " has non-consecutive 1-bits",
        Why::TooFew => " has fewer bits than min_cbm_bits",
        Why::OtherControl => " belongs to another control group",
        Why::HasRegion => " has a region already",
        _ => "",
    }
}
