//! Strings of JSON.

use json_report::push_key;
use num_text::GrowingText;
use std::test::Fail;

#[test]
fn a_string_escapes_what_it_must(rt: HostRuntime) -> Result<(), Fail> {
    let mut report = GrowingText::create(rt.alloc())?;
    push_key(&mut report, false, "a\"b\\c\n\u{1f}|")?;
    let bytes = report.into_bytes();
    assert!(rt; bytes.as_slice() == b"\"a\\\"b\\\\c\\n\\u001f|\":".as_slice());
    Ok(())
}
