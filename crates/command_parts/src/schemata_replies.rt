//! The replies to what is wrong with a written schemata text, or stands against its masks.
ghost use Rattle.std.specs.Prelude.{◌≡◌};
ghost use Rattle.tree_law.specs.Refusals.{reply_of};
ghost use Rattle.tree_law.specs.commands.Schemata.{mask_reason, overlap_refusal, text_refusal};

use cbm::CbmFault;
use mode_rules::Overlap;
use rc_base::{Reply, Why};
use schemata_text::TextFault;

// The reason that goes with a mask's fault.
fn mask_reason(fault: CbmFault) -> Why
    ensures { result ≡ mask_reason fault }
{
    match fault {
        CbmFault::Range => Why::OutOfRange,
        CbmFault::Gaps => Why::Gaps,
        CbmFault::TooFew => Why::TooFew,
    }
}

/// The reply to a write of `schemata` whose text has this fault. The reasons are this project's profile.
pub fn text_refusal(fault: TextFault) -> Reply
    ensures { result ≡ reply_of (Some (text_refusal fault)) }
{
    match fault {
        TextFault::NoColon => Reply::refused(Why::NoColon, 0),
        TextFault::BadResource => Reply::refused(Why::BadResource, 0),
        TextFault::NoValue => Reply::refused(Why::NoValue, 0),
        TextFault::NoEquals => Reply::refused(Why::NoEquals, 0),
        TextFault::BadDomain => Reply::refused(Why::BadDomain, 0),
        TextFault::Twice { domain } => Reply::refused(Why::DomainTwice, u64::from(domain)),
        TextFault::NotHex => Reply::refused(Why::NotHex, 0),
        TextFault::Mask { bits, fault } => Reply::refused(mask_reason(fault), bits),
    }
}

/// The reply to a write of `schemata` or `mode` where this stands against a mask in a domain (kernel documentation, `mode` and "Cache
/// Pseudo-Locking").
pub fn overlap_refusal(domain: u8, overlap: Overlap) -> Reply
    ensures { result ≡ reply_of (Some (overlap_refusal domain overlap)) }
{
    match overlap {
        Overlap::Exclusive => Reply::refused(Why::OverlapExclusive, 0),
        Overlap::Region => Reply::refused(Why::OverlapRegion, 0),
        Overlap::Other => Reply::refused(Why::OverlapOther, 0),
        Overlap::Hardware => Reply::refused(Why::OverlapShareable, 0),
        Overlap::HasRegion => Reply::refused(Why::HasRegion, u64::from(domain)),
    }
}
