//! Slices whose lines are counted, whose region is one of two slices, and that are locked twice.
ghost use Rattle.std.specs.Prelude.{◌≡◌};

use cache_core::{Cache, Touched};
use machine::{Machine, Parameters};
use rc_base::{Gid, Tag};
use std::process::Abort;
use std::test::Fail;

// The first line of a machine's first region.
const FIRST_LINE: u64 = 1 << 52;

// A tag of the default group.
fn tag(epoch: u64, mask: u32) -> Tag
    ensures { result ≡ record { epoch = epoch; owner = record { 0 = 0 }; class = 0; rmid = 0; mask = mask; domain = 0 } }
{
    Tag {
        epoch,
        owner: Gid(0),
        class: 0,
        rmid: 0,
        mask,
        domain: 0,
    }
}

// Four sets of so many ways, in so many slices.
fn four_sets(rt: &impl Abort, ways: u8, slices: u8) -> Machine
    ensures { (result.domains ≡ 1) × (result.sets ≡ 4) × (result.ways ≡ ways) × (result.rmids ≡ 16) × (result.slices ≡ slices) }
{
    let parameters = Parameters {
        sets: 4,
        ways,
        slices,
        ..Parameters::default()
    };
    Machine::checked(&parameters).expect(rt, "the parameters are in range")
}

#[test]
fn the_lines_of_a_slice_are_counted(rt: HostRuntime) -> Result<(), Fail> {
    let machine = four_sets(&rt, 4, 1);
    let mut cache = Cache::create(rt.alloc(), &machine, 0, 0)?;
    assert_eq!(rt; cache.access(&tag(0, 15), 0), Touched::Filled { way: 0 });
    assert_eq!(rt; cache.access(&tag(0, 15), 1), Touched::Filled { way: 0 });
    assert_eq!(rt; (cache.look(0), cache.valid()), (2, 2));
    cache.flush(2);
    assert_eq!(rt; (cache.look(0), cache.valid()), (0, 0));
    Ok(())
}

#[test]
fn a_slice_loads_the_lines_of_its_own_sets(rt: HostRuntime) -> Result<(), Fail> {
    let machine = four_sets(&rt, 2, 2);
    let mut cache = Cache::create(rt.alloc(), &machine, 0, 1)?;
    cache.lock(1, 2, FIRST_LINE);
    assert_eq!(rt; (cache.look(0), cache.valid()), (2, 2));
    assert_eq!(rt;
        cache.access(&tag(1, 1), FIRST_LINE + 3),
        Touched::Hit { way: 1 }
    );
    Ok(())
}

#[test]
fn a_second_lock_loads_the_second_region_alone(rt: HostRuntime) -> Result<(), Fail> {
    let machine = four_sets(&rt, 4, 1);
    let mut cache = Cache::create(rt.alloc(), &machine, 0, 0)?;
    cache.lock(1, 12, FIRST_LINE);
    cache.lock(3, 2, FIRST_LINE + 4);
    assert_eq!(rt; (cache.look(0), cache.valid()), (4, 4));
    assert_eq!(rt;
        cache.access(&tag(3, 8), FIRST_LINE),
        Touched::Filled { way: 3 }
    );
    assert_eq!(rt; cache.drop_line(3, FIRST_LINE + 5), Some(1));
    assert_eq!(rt; (cache.look(0), cache.valid()), (4, 4));
    Ok(())
}
