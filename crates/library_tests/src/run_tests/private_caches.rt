//! Private caches of small lists.

use private_lru::{Item, private_hits};
use std::test::Fail;

// Three lines, of which two come again.
const USES: [Item; 5] = [
    Item::Use { line: 1 },
    Item::Use { line: 2 },
    Item::Use { line: 1 },
    Item::Use { line: 3 },
    Item::Use { line: 2 },
];

#[test]
fn distinct_lines_are_counted(rt: HostRuntime) -> Result<(), Fail> {
    assert_eq!(rt;
        private_hits(rt.alloc(), &USES, 2)?.as_slice(),
        [false, false, true, false, false].as_slice()
    );
    assert_eq!(rt;
        private_hits(rt.alloc(), &USES, 3)?.as_slice(),
        [false, false, true, false, true].as_slice()
    );
    Ok(())
}

// The last but one of these uses hits, for the drop made room.
const WITH_A_DROP: [Item; 6] = [
    Item::Use { line: 0 },
    Item::Use { line: 1 },
    Item::Drop { line: 1 },
    Item::Use { line: 2 },
    Item::Use { line: 0 },
    Item::Use { line: 1 },
];

#[test]
fn dropped_lines_make_room(rt: HostRuntime) -> Result<(), Fail> {
    assert_eq!(rt;
        private_hits(rt.alloc(), &WITH_A_DROP, 2)?.as_slice(),
        [false, false, false, false, true, false].as_slice()
    );
    Ok(())
}
