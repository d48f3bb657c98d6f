//! The kinds of line.
ghost use Rattle.std.specs.Prelude.{◌≡◌};
ghost use Rattle.script_text.specs.Kinds.{kind_name, kind_with, kind_with_t, kind_of, may_stand};

use rc_base::is_text;

/// Where the next line stands.
#[derive(Clone, Copy, Debug, PartialEq, Eq)]
pub enum LinePosition {
    /// Before the machine line.
    Start,
    /// After the machine line, before the first phase.
    Head,
    /// Directly after `phase`.
    Opened,
    /// After a phase's order.
    Ordered,
    /// In a thread.
    Thread,
}

/// What kinds of line there are, by their first words.
#[derive(Clone, Copy, Debug, PartialEq, Eq)]
pub enum Kind {
    Machine,
    Tasks,
    Phase,
    Order,
    Thread,
    Mkdir,
    Rmdir,
    Write,
    Read,
    List,
    Flush,
    Tick,
    Clflush,
    Access,
    Sweep,
    Touch,
}

impl Kind {
    // The word that a line of this kind begins with.
    fn name(self) -> &'static [u8]
        ensures { result.now ≡ kind_name self }
    {
        match self {
            Kind::Machine => b"machine",
            Kind::Tasks => b"tasks",
            Kind::Phase => b"phase",
            Kind::Order => b"order",
            Kind::Thread => b"thread",
            Kind::Mkdir => b"mkdir",
            Kind::Rmdir => b"rmdir",
            Kind::Write => b"write",
            Kind::Read => b"read",
            Kind::List => b"list",
            Kind::Flush => b"flush",
            Kind::Tick => b"tick",
            Kind::Clflush => b"clflush",
            Kind::Access => b"access",
            Kind::Sweep => b"sweep",
            Kind::Touch => b"touch",
        }
    }
}

// The only kind whose word can begin with a `t` and this byte.
fn kind_with_t(second: u8) -> Kind
    ensures { result ≡ kind_with_t second }
{
    if second == b'a' {
        Kind::Tasks
    } else if second == b'h' {
        Kind::Thread
    } else if second == b'i' {
        Kind::Tick
    } else {
        Kind::Touch
    }
}

// The only kind whose word can begin with these two bytes.
fn kind_with(first: u8, second: u8) -> Kind
    ensures { result ≡ kind_with first second }
{
    if first == b'a' {
        Kind::Access
    } else if first == b'm' {
        if second == b'a' {
            Kind::Machine
        } else {
            Kind::Mkdir
        }
    } else if first == b'r' {
        if second == b'e' {
            Kind::Read
        } else {
            Kind::Rmdir
        }
    } else if first == b't' {
        kind_with_t(second)
    } else if first == b'w' {
        Kind::Write
    } else if first == b'l' {
        Kind::List
    } else if first == b'f' {
        Kind::Flush
    } else if first == b's' {
        Kind::Sweep
    } else if first == b'p' {
        Kind::Phase
    } else if first == b'c' {
        Kind::Clflush
    } else {
        Kind::Order
    }
}

/// The kind of a line that begins with this word.
pub fn kind_named(word: &[u8]) -> Option<Kind>
    ensures { result ≡ kind_of word.now }
{
    let [first, second, ..] = word else {
        return None;
    };
    let kind = kind_with(*first, *second);
    if is_text(word, kind.name()) {
        Some(kind)
    } else {
        None
    }
}

/// Whether such a line may stand here.
pub fn may_stand(kind: Kind, place: LinePosition) -> bool
    ensures { result ≡ may_stand kind place }
{
    match (kind, place) {
        (Kind::Machine, LinePosition::Start) => true,
        (Kind::Machine, _) => false,
        (Kind::Tasks, LinePosition::Head) => true,
        (Kind::Tasks, _) => false,
        (Kind::Phase, LinePosition::Start) => false,
        (Kind::Phase, _) => true,
        (Kind::Order, LinePosition::Opened) => true,
        (Kind::Order, _) => false,
        (Kind::Thread, LinePosition::Opened | LinePosition::Ordered | LinePosition::Thread) => true,
        (Kind::Thread, _) => false,
        (_, LinePosition::Thread) => true,
        (_, _) => false,
    }
}
