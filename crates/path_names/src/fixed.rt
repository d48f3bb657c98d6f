//! The table of the fixed entries of directories.
ghost use Rattle.std.specs.Prelude.{◌≡◌};
ghost use Rattle.path_names.specs.PathTable.{domain_name, fixed_in, fixed_name, fixed_path, holder_at, owner_at};

use crate::dirs::{DirRef, Holder, Owner};
use crate::files::FileKind;
use crate::path_ref::PathRef;

/// A fixed entry of a directory, which no command makes or removes.
#[derive(Clone, Copy, Debug, PartialEq, Eq)]
pub enum FixedEntry {
    /// A file.
    File(FileKind),
    /// The directory `info`.
    Info,
    /// The directory `info/L3`.
    InfoL3,
    /// The directory `info/L3_MON`.
    InfoL3Mon,
    /// The directory `mon_data` of a group.
    MonData,
    /// The directory `mon_groups` of a control group.
    MonGroups,
}

impl FixedEntry {
    /// Its name in its directory.
    pub fn name(self) -> &'static [u8]
        ensures { result.now ≡ fixed_name self }
    {
        match self {
            FixedEntry::File(kind) => kind.name(),
            FixedEntry::Info => b"info",
            FixedEntry::InfoL3 => b"L3",
            FixedEntry::InfoL3Mon => b"L3_MON",
            FixedEntry::MonData => b"mon_data",
            FixedEntry::MonGroups => b"mon_groups",
        }
    }

    /// What it is in this directory.
    pub(crate) fn path(self, dir: DirRef) -> PathRef
        ensures { result ≡ fixed_path dir self }
    {
        match self {
            FixedEntry::File(kind) => PathRef::File(dir, kind),
            FixedEntry::Info => PathRef::Dir(DirRef::Info),
            FixedEntry::InfoL3 => PathRef::Dir(DirRef::InfoL3),
            FixedEntry::InfoL3Mon => PathRef::Dir(DirRef::InfoL3Mon),
            FixedEntry::MonData => PathRef::Dir(DirRef::MonData(holder_at(dir))),
            FixedEntry::MonGroups => PathRef::Dir(DirRef::MonGroups(owner_at(dir))),
        }
    }
}

// The group of a directory, and the default group where it is no other group's.
fn holder_at(dir: DirRef) -> Holder
    ensures { result ≡ holder_at dir }
{
    match dir {
        DirRef::Ctrl(name) => Holder::Control(Owner::Ctrl(name)),
        DirRef::Mon(owner, name) => Holder::Monitor(owner, name),
        _ => Holder::Control(Owner::Default),
    }
}

// The control group of a directory, and the default group where it is no other control group's.
fn owner_at(dir: DirRef) -> Owner
    ensures { result ≡ owner_at dir }
{
    match dir {
        DirRef::Ctrl(name) => Owner::Ctrl(name),
        _ => Owner::Default,
    }
}

// The fixed entries of `/`.
const ROOT: [FixedEntry; 9] = [
    FixedEntry::File(FileKind::Cpus),
    FixedEntry::File(FileKind::CpusList),
    FixedEntry::Info,
    FixedEntry::File(FileKind::Mode),
    FixedEntry::MonData,
    FixedEntry::MonGroups,
    FixedEntry::File(FileKind::Schemata),
    FixedEntry::File(FileKind::Size),
    FixedEntry::File(FileKind::Tasks),
];

// The fixed entries of a control group's directory.
const CONTROL: [FixedEntry; 8] = [
    FixedEntry::File(FileKind::Cpus),
    FixedEntry::File(FileKind::CpusList),
    FixedEntry::File(FileKind::Mode),
    FixedEntry::MonData,
    FixedEntry::MonGroups,
    FixedEntry::File(FileKind::Schemata),
    FixedEntry::File(FileKind::Size),
    FixedEntry::File(FileKind::Tasks),
];

// The fixed entries of a monitor group's directory.
const MONITOR: [FixedEntry; 4] = [
    FixedEntry::File(FileKind::Cpus),
    FixedEntry::File(FileKind::CpusList),
    FixedEntry::MonData,
    FixedEntry::File(FileKind::Tasks),
];

// The fixed entries of `/info`.
const INFO: [FixedEntry; 3] = [
    FixedEntry::InfoL3,
    FixedEntry::InfoL3Mon,
    FixedEntry::File(FileKind::LastStatus),
];

// The fixed entries of `/info/L3`.
const INFO_L3: [FixedEntry; 6] = [
    FixedEntry::File(FileKind::BitUsage),
    FixedEntry::File(FileKind::CbmMask),
    FixedEntry::File(FileKind::MinCbmBits),
    FixedEntry::File(FileKind::NumClosids),
    FixedEntry::File(FileKind::ShareableBits),
    FixedEntry::File(FileKind::SparseMasks),
];

// The fixed entries of `/info/L3_MON`.
const INFO_L3_MON: [FixedEntry; 3] = [
    FixedEntry::File(FileKind::MaxThreshold),
    FixedEntry::File(FileKind::MonFeatures),
    FixedEntry::File(FileKind::NumRmids),
];

/// The fixed entries of a directory, in the order in which they are listed. `mon_data` has none here: in it is one
/// directory for each domain of the machine, by `domain_name`.
pub fn fixed_in(dir: DirRef) -> &'static [FixedEntry]
    ensures { result.now ≡ fixed_in dir }
{
    match dir {
        DirRef::Root => &ROOT,
        DirRef::Ctrl(_) => &CONTROL,
        DirRef::Mon(_, _) => &MONITOR,
        DirRef::MonGroups(_) | DirRef::MonData(_) => &[],
        DirRef::MonDomain(_, _) => &[FixedEntry::File(FileKind::Occupancy)],
        DirRef::Info => &INFO,
        DirRef::InfoL3 => &INFO_L3,
        DirRef::InfoL3Mon => &INFO_L3_MON,
    }
}

/// The name of the directory of a domain in `mon_data`: `mon_L3_` and two digits (kernel documentation, "Resource alloc and
/// monitor groups"), where its number is below 100.
pub fn domain_name(domain: u8) -> [u8; 9]
    ensures { result ≡ domain_name domain }
{
    [
        b'm',
        b'o',
        b'n',
        b'_',
        b'L',
        b'3',
        b'_',
        b'0' + domain / 10,
        b'0' + domain % 10,
    ]
}
