//! The reply of a command, and the reason of each refusal.
ghost use Rattle.std.specs.Prelude.{◌≡◌};
ghost use Rattle.rc_base.specs.Replies.{code_of, errno_of, name_of, number_of, refused};

/// The error numbers that a refusal may have. They are Linux's.
#[derive(Clone, Copy, Debug, PartialEq, Eq)]
pub enum Errno {
    /// Error 1: operation not permitted.
    Eperm,
    /// Error 2: no such file or directory.
    Enoent,
    /// Error 3: no such process.
    Esrch,
    /// Error 13: permission denied.
    Eacces,
    /// Error 16: device or resource busy.
    Ebusy,
    /// Error 17: file exists.
    Eexist,
    /// Error 22: invalid argument.
    Einval,
    /// Error 28: no space left on device.
    Enospc,
}

impl Errno {
    /// The usual name, in capitals.
    pub fn name(self) -> &'static str
        ensures { result.now ≡ name_of self }
    {
        match self {
            Errno::Eperm => "EPERM",
            Errno::Enoent => "ENOENT",
            Errno::Esrch => "ESRCH",
            Errno::Eacces => "EACCES",
            Errno::Ebusy => "EBUSY",
            Errno::Eexist => "EEXIST",
            Errno::Einval => "EINVAL",
            Errno::Enospc => "ENOSPC",
        }
    }

    /// The number, as Linux counts errors.
    pub fn code(self) -> u8
        ensures { result ≡ code_of self }
    {
        match self {
            Errno::Eperm => 1,
            Errno::Enoent => 2,
            Errno::Esrch => 3,
            Errno::Eacces => 13,
            Errno::Ebusy => 16,
            Errno::Eexist => 17,
            Errno::Einval => 22,
            Errno::Enospc => 28,
        }
    }
}

/// The reason of a refusal (this project's profile). A reason with no argument has the argument 0.
#[derive(Clone, Copy, Debug, PartialEq, Eq)]
pub enum Why {
    /// The path names no file or directory, or no directory would hold it.
    NoSuchPath = 1,
    /// The directory holds no groups, or what is at the path is no group's directory.
    NotAPlace,
    /// The path is there already.
    Exists,
    /// The file cannot be written.
    OnlyRead,
    /// No class of service is free.
    OutOfClosids,
    /// A domain has no space for a new group; the argument is the least such domain.
    NoSpace,
    /// No RMID is free and none is in limbo.
    OutOfRmids,
    /// No RMID is free, and some are in limbo.
    RmidsBusy,
    /// A task is not declared; the argument is its id.
    NoTask,
    /// A schemata line has no colon.
    NoColon,
    /// A schemata line names another resource than L3.
    BadResource,
    /// A schemata line has nothing after its colon.
    NoValue,
    /// A schemata entry has no equals sign.
    NoEquals,
    /// A schemata entry names no domain of the machine.
    BadDomain,
    /// A schemata text names a domain twice; the argument is the domain.
    DomainTwice,
    /// A mask is no hexadecimal number below 2^64.
    NotHex,
    /// A mask is 0 or has a bit past the ways; the argument is the mask.
    OutOfRange,
    /// A mask has a 0-bit between two 1-bits, where masks may have no gaps; the argument is the mask.
    Gaps,
    /// A mask's lowest run of adjacent 1-bits is shorter than the least number of bits; the argument is the mask.
    TooFew,
    /// A mask overlaps an exclusive group's.
    OverlapExclusive,
    /// A mask overlaps a pseudo-locked region.
    OverlapRegion,
    /// A mask overlaps another shareable or exclusive group's.
    OverlapOther,
    /// A mask overlaps the bits that other hardware shares.
    OverlapShareable,
    /// A group cannot become exclusive, since its masks overlap another shareable or exclusive group's or shareable bits.
    SchemataOverlap,
    /// The text is the name of no mode that may be written.
    UnknownMode,
    /// The group is pseudo-locked.
    GroupLocked,
    /// The group is in pseudo-locksetup or pseudo-locked.
    Locking,
    /// The default group cannot be pseudo-locked.
    DefaultGroup,
    /// The group has tasks.
    HasTasks,
    /// The group has CPUs.
    HasCpus,
    /// The group has monitor groups.
    HasMonGroups,
    /// A task belongs to another control group than the parent; the argument is its id.
    OtherControl,
    /// An element of a task list is no decimal number below 2^64.
    BadTaskList,
    /// A CPU text has no reading.
    BadCpus,
    /// A CPU text names a number that is no CPU; the argument is the least.
    NotACpu,
    /// The default group would lose a CPU.
    DropsDefault,
    /// A monitor group would hold a CPU that is not its parent's.
    NotParents,
    /// The text is no number of bytes of one cache.
    BadThreshold,
    /// A region takes exactly one domain.
    OneDomain,
    /// The domain has a region already; the argument is the domain.
    HasRegion,
    /// The offset is not below the region's size in bytes.
    PastRegion,
    /// The CPU is not in the region's domain.
    WrongCpu,
}

impl Why {
    /// The number of this reason, from 1 to 42.
    pub fn number(self) -> u8
        ensures { result ≡ number_of self }
    {
        self as u8
    }

    /// The error number that goes with this reason.
    pub fn errno(self) -> Errno
        ensures { result ≡ errno_of self }
    {
        match self {
            Why::NotAPlace => Errno::Eperm,
            Why::NoSuchPath => Errno::Enoent,
            Why::NoTask => Errno::Esrch,
            Why::OnlyRead => Errno::Eacces,
            Why::RmidsBusy => Errno::Ebusy,
            Why::Exists => Errno::Eexist,
            Why::OutOfClosids | Why::NoSpace | Why::OutOfRmids => Errno::Enospc,
            _ => Errno::Einval,
        }
    }
}

/// What a command answers.
#[derive(Clone, Copy, Debug, PartialEq, Eq)]
pub enum Reply {
    /// The command was accepted.
    Ok,
    /// The command was refused. `errno` is that of `why`.
    Refused { errno: Errno, why: Why, arg: u64 },
}

impl Reply {
    /// A refusal for this reason.
    pub fn refused(why: Why, arg: u64) -> Reply
        ensures { result ≡ refused why arg }
    {
        Reply::Refused {
            errno: why.errno(),
            why,
            arg,
        }
    }
}
