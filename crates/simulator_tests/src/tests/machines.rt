//! Machine lines, good and bad.

use crate::tests::bad_scripts::BadLines;
use crate::tests::told;
use resctrl_top::Status;
use std::test::Fail;

const GOOD: &str = "machine
machine domains=1 sets=64 ways=8 classes=8 rmids=16 cpus=1 min=1 shareable=0 threshold=0 sparse=0 slices=1
machine domains=8 cpus=64
machine domains=08
machine sets=65536
machine sets=65536 ways=16
machine sets=32768 ways=32
machine domains=8 sets=4096 ways=32
machine ways=32
machine classes=64
machine rmids=256
machine cpus=64
machine cpus=2 domains=2
machine min=8
machine shareable=ff
machine shareable=0xFF
machine ways=32 shareable=ffffffff
machine threshold=32768
machine threshold=32769 sets=128
machine sparse=1
machine slices=2
machine slices=16
machine slices=2 sets=2
machine domains=8 slices=4";

pub(crate) const BAD: [BadLines; 1] = [(
    "# a machine\n \t",
    "line 2: bad machine line",
    "machine domains=0
machine domains=9
machine sets=3
machine sets=48
machine sets=0
machine sets=131072
machine sets=65536 ways=17
machine domains=8 sets=8192 ways=32
machine ways=0
machine ways=33
machine classes=0
machine classes=65
machine rmids=0
machine rmids=257
machine cpus=0
machine cpus=65
machine domains=2 cpus=1
machine min=0
machine min=9
machine shareable=0Xff
machine shareable=100
machine shareable=
machine threshold=32769
machine sparse=2
machine slices=0
machine slices=3
machine slices=32
machine slices=2 sets=1
machine domains=8 slices=8
machine ways=8 ways=8
machine ways=8=8
machine ways
machine Ways=8
machine ways=0x8",
)];

#[test]
fn machines_are_in_their_ranges(rt: HostRuntime) -> Result<(), Fail> {
    for line in GOOD.split('\n') {
        let script = format!(in rt.alloc(); "# a machine\n \t{line}\r\n")?;
        let (status, _) = told(rt.alloc(), script.as_bytes())?;
        assert_eq!(rt; status, Status::Done, "{line}");
    }
    Ok(())
}
