//! Names that come after the names were settled.

use path_names::{NameId, Names};
use rc_base::NoMemory;

#[test]
fn settled_names_keep_their_numbers(rt: HostRuntime) -> Result<(), NoMemory> {
    let mut names = Names::create(rt.alloc())?;
    let a = names.intern(b"a")?;
    assert_eq!(rt; names.intern(b"a_name_of_any_length"), Ok(NameId(1)));
    names.settle();
    assert_eq!(rt; names.text(a), b"a".as_slice());
    assert_eq!(rt; names.intern(b"c"), Ok(NameId(2)));
    assert_eq!(rt; names.intern(b"a_name_of_any_length"), Ok(NameId(1)));
    assert_eq!(rt; names.intern(b"a"), Ok(NameId(0)));
    Ok(())
}
