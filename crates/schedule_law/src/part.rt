//! The parts of the machine's state, and what happens to them.
use cache_core::SliceEntry;
use rc_base::Tag;
use run_law::TreeEntry;
use std::collections::LinkedList;
use step_world::thread_state::Thread;

/// The tag that the tree gave to a task on a CPU.
#[derive(Clone, Copy, Drop)]
pub struct GivenTag {
    /// The task.
    pub task: u32,
    /// The CPU.
    pub cpu: u8,
    /// The tag, with the epoch of the tree that gave it.
    pub tag: Tag,
}

/// A part of the machine's state. No value of it is made: only proofs see it.
pub enum Part {
    /// The tree's journal, and the number of the thread that holds the tree.
    Tree {
        history: LinkedList<TreeEntry>,
        holder: Option<u64>,
    },
    /// The journal of a slice.
    Slice {
        list: LinkedList<SliceEntry>,
    },
    /// Where a thread is, whether its phase is known to have begun, the lines that its command's looks found, in order, and the tag
    /// that it was given last.
    Worker {
        thread: Thread,
        begun: bool,
        found: LinkedList<u64>,
        given: Option<GivenTag>,
    },
    /// The number of the present phase, and of the first thread that is not known to be at its end.
    Phase {
        number: u64,
        ended: u64,
    },
}

/// What happens to parts.
#[derive(Drop)]
pub enum Happening {
    /// The command of this thread takes the tree.
    Take {
        thread: u64,
    },
    /// It counts the lines of an RMID in a slice, which gets this entry.
    Look {
        entry: SliceEntry,
    },
    /// It is decided, after so many looks. Where it is the last step of the command, the tree is let go.
    Decide {
        command: TreeEntry,
        last: bool,
        made: u64,
    },
    /// What follows it is done in a slice, which gets this entry. After the last one the tree is let go.
    Follow {
        entry: SliceEntry,
        last: bool,
    },
    /// An access learns its tag.
    Label {
        given: GivenTag,
    },
    /// It hits or fills a way of a slice, which gets this entry.
    Touch {
        entry: SliceEntry,
    },
    /// It finds its tag stale, and is to learn another.
    Again,
    /// The phase of a thread is found to have begun.
    Begin,
    /// A thread is found to be at its end, after all threads before it.
    End,
    /// The next phase begins.
    Pass,
}
