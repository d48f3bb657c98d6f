//! Scripts of two threads, by the answers of their steps and by their journals.
ghost use Rattle.step_world.specs.Worlds.{IsWorldOf};

use cache_core::{SliceEntry, Touched, What};
use rc_base::{Gid, Reply};
use script_ops::Script;
use script_text::read_script;
use std::alloc::Global;
use std::test::Fail;
use step_world::{Action, Stepped, World, play};

const TWO_COMMANDS: &[u8] =
    b"machine sets=1 ways=4\ntasks 1\nphase\nthread\nwrite /schemata L3:0=3\nflush\nthread\naccess 1 0 0\n";

const FLUSH_AND_ACCESS: &[u8] =
    b"machine sets=1 ways=4\ntasks 1\nphase\norder 0 1 1 0\nthread\nflush\nthread\naccess 1 0 0\n";

const TOOK: Stepped = Stepped::Did {
    action: Action::Took,
};

const DECIDED: Stepped = Stepped::Did {
    action: Action::Decided { reply: Reply::Ok },
};

const FOLLOWED: Stepped = Stepped::Did {
    action: Action::Followed,
};

// The access fills its way.
const FILLED: Stepped = Stepped::Did {
    action: Action::Touched {
        touched: Touched::Filled { way: 0 },
    },
};

// An access reads a tag of this epoch.
fn tagged(epoch: u64) -> Stepped {
    Stepped::Did {
        action: Action::Tagged { epoch },
    }
}

// An access comes to its slice, which has this floor, with a tag that is stale.
fn stale(floor: u64) -> Stepped {
    Stepped::Did {
        action: Action::Touched {
            touched: Touched::Stale { floor },
        },
    }
}

// What the steps of these threads answer, one after the other.
fn answers(
    alloc: Global,
    world: &mut World,
    script: &Script,
    order: &[u32],
) -> Result<Vec<Stepped>, Fail>
    requires { IsWorldOf script.now world.old }
{
    let mut answers = Vec::new(alloc);
    for t in order {
        answers.push(world.step(script, *t))?;
    }
    Ok(answers)
}

// What they answer from the beginning of a script.
fn told(alloc: Global, text: &[u8], order: &[u32]) -> Result<Vec<Stepped>, Fail> {
    if text.len() > 1 << 20 {
        return Ok(Vec::new(alloc));
    }
    let script = read_script(alloc, text)?;
    let mut world = World::create(alloc, &script)?;
    answers(alloc, &mut world, &script, order)
}

#[test]
fn a_tag_is_stale_after_two_commands(rt: HostRuntime) -> Result<(), Fail> {
    let order = [1, 0, 0, 0, 0, 0, 0, 1, 1, 1];
    assert_eq!(rt;
        told(rt.alloc(), TWO_COMMANDS, &order)?.as_slice(),
        [
            tagged(0),
            TOOK,
            DECIDED,
            FOLLOWED,
            TOOK,
            DECIDED,
            FOLLOWED,
            stale(2),
            tagged(2),
            FILLED
        ]
        .as_slice()
    );
    Ok(())
}

#[test]
fn a_tag_is_stale_after_one_command(rt: HostRuntime) -> Result<(), Fail> {
    let order = [1, 0, 0, 0, 1, 1, 1, 1, 2];
    assert_eq!(rt;
        told(rt.alloc(), FLUSH_AND_ACCESS, &order)?.as_slice(),
        [
            tagged(0),
            TOOK,
            DECIDED,
            FOLLOWED,
            stale(1),
            tagged(1),
            FILLED,
            Stepped::Ended,
            Stepped::Ended
        ]
        .as_slice()
    );
    Ok(())
}

#[test]
fn a_tag_waits_for_the_tree(rt: HostRuntime) -> Result<(), Fail> {
    let order = [0, 1, 1, 0, 0, 1, 1];
    assert_eq!(rt;
        told(rt.alloc(), FLUSH_AND_ACCESS, &order)?.as_slice(),
        [
            TOOK,
            Stepped::Blocked,
            Stepped::Blocked,
            DECIDED,
            FOLLOWED,
            tagged(1),
            FILLED
        ]
        .as_slice()
    );
    Ok(())
}

// An entry of the only op of a thread, with epoch 1.
fn entry(thread: u32, what: What) -> SliceEntry {
    SliceEntry {
        thread,
        op: 0,
        epoch: 1,
        what,
    }
}

#[test]
fn a_flush_goes_on_before_the_access_that_waits(rt: HostRuntime) -> Result<(), Fail> {
    let script = read_script(rt.alloc(), FLUSH_AND_ACCESS)?;
    let (tree, slices) = play(rt.alloc(), &script)?.into_parts();
    let what = What::Access {
        owner: Gid(0),
        rmid: 0,
        mask: 15,
        line: 0,
        hit: false,
        way: 0,
    };
    assert_eq!(rt; tree.len(), 1);
    assert_eq!(rt; slices.len(), 1);
    for entries in &slices {
        assert_eq!(rt;
            entries.as_slice(),
            [entry(0, What::Flush), entry(1, what)].as_slice()
        );
    }
    Ok(())
}
