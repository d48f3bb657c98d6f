//! The reasons of refusals by their numbers.
ghost use Rattle.std.specs.Prelude.{◌≡◌, MatchOption};
ghost use Rattle.rc_base.specs.Replies.{number_of};
ghost use Rattle.rc_base.specs.declared.replies.Why.{Why};

use rc_base::Why;

/// The reason with this number, from 1 to 42; None for any other.
pub(crate) fn reason_numbered(n: u64) -> Option<Why>
    ensures { MatchOption result ((why : Why) → number_of why ≡ n → ⊥) (λ why. number_of why ≡ n) }
{
    match n {
        1 => Some(Why::NoSuchPath),
        2 => Some(Why::NotAPlace),
        3 => Some(Why::Exists),
        4 => Some(Why::OnlyRead),
        5 => Some(Why::OutOfClosids),
        6 => Some(Why::NoSpace),
        7 => Some(Why::OutOfRmids),
        8 => Some(Why::RmidsBusy),
        9 => Some(Why::NoTask),
        10 => Some(Why::NoColon),
        11 => Some(Why::BadResource),
        12 => Some(Why::NoValue),
        13 => Some(Why::NoEquals),
        14 => Some(Why::BadDomain),
        15 => Some(Why::DomainTwice),
        16 => Some(Why::NotHex),
        17 => Some(Why::OutOfRange),
        18 => Some(Why::Gaps),
        19 => Some(Why::TooFew),
        20 => Some(Why::OverlapExclusive),
        21 => Some(Why::OverlapRegion),
        22 => Some(Why::OverlapOther),
        23 => Some(Why::OverlapShareable),
        24 => Some(Why::SchemataOverlap),
        25 => Some(Why::UnknownMode),
        26 => Some(Why::GroupLocked),
        27 => Some(Why::Locking),
        28 => Some(Why::DefaultGroup),
        29 => Some(Why::HasTasks),
        30 => Some(Why::HasCpus),
        31 => Some(Why::HasMonGroups),
        32 => Some(Why::OtherControl),
        33 => Some(Why::BadTaskList),
        34 => Some(Why::BadCpus),
        35 => Some(Why::NotACpu),
        36 => Some(Why::DropsDefault),
        37 => Some(Why::NotParents),
        38 => Some(Why::BadThreshold),
        39 => Some(Why::OneDomain),
        40 => Some(Why::HasRegion),
        41 => Some(Why::PastRegion),
        42 => Some(Why::WrongCpu),
        _ => None,
    }
}
