//! What is wrong with a schemata text.
use cbm::CbmFault;

/// Why a schemata text is not read: the fault of its first bad item from left to right. Where an
/// item has several, the first of this order (this project's profile).
#[derive(Clone, Copy, Debug, PartialEq, Eq)]
pub enum TextFault {
    /// A line has no `:`.
    NoColon,
    /// A line's name, without the blanks around it, is not `L3`.
    BadResource,
    /// Nothing but blanks stands after a line's first `:`.
    NoValue,
    /// An entry has no `=`.
    NoEquals,
    /// An entry's id is no decimal number of a domain that exists.
    BadDomain,
    /// An earlier entry of the text, on any line, is of this domain.
    Twice { domain: u8 },
    /// An entry's mask is no hexadecimal number of 64 bits.
    NotHex,
    /// An entry's mask is this number, which is no valid mask.
    Mask { bits: u64, fault: CbmFault },
}
