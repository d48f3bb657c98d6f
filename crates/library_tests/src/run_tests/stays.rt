//! How long groups stay exclusive on a mask.

use rc_base::Gid;
use run_counts::Window;
use run_windows::windows;
use script_text::read_script;
use std::test::Fail;
use step_world::play;

// Three exclusive groups. After the flush the second gets another mask, and the third is exclusive no more.
const THREE_TENANTS: &[u8] = b"machine sets=1 ways=8
tasks 1 2 3
phase
thread
write /schemata L3:0=80
mkdir /a
write /a/schemata L3:0=3
write /a/mode exclusive
write /a/tasks 1
mkdir /b
write /b/schemata L3:0=4
write /b/mode exclusive
write /b/tasks 2
mkdir /c
write /c/schemata L3:0=8
write /c/mode exclusive
write /c/tasks 3
flush
access 1 0 0
access 2 0 64
access 3 0 128
write /b/schemata L3:0=30
access 1 0 0
access 2 0 64
access 3 0 128
write /c/mode shareable
access 1 0 0
access 2 0 64
access 3 0 128
";

// A window after the flush, in which each access after the first hits, as in a private cache.
fn window(gid: u32, ways: u8, accesses: u64, hits: u64) -> Window {
    Window {
        domain: 0,
        slice: 0,
        gid: Gid(gid),
        ways,
        from: 7,
        accesses,
        hits,
        covered: accesses,
        covered_hits: hits,
        private: hits,
    }
}

#[test]
fn groups_last_while_their_masks_stay(rt: HostRuntime) -> Result<(), Fail> {
    let script = read_script(rt.alloc(), THREE_TENANTS)?;
    let journals = play(rt.alloc(), &script)?;
    assert_eq!(rt;
        windows(rt.alloc(), &script, &journals)?.as_slice(),
        [window(1, 2, 3, 2), window(2, 1, 1, 0), window(3, 1, 2, 1)].as_slice()
    );
    Ok(())
}
