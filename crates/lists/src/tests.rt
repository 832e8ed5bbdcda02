//! Each call once.
use crate::{Items, ListType, Text};
use std::test::Fail;

#[test]
fn lists_and_texts(rt: HostRuntime) -> Result<(), Fail> {
    let alloc = rt.alloc();
    let mut numbers: Items<u64> = Items::start(alloc);
    assert_eq!(rt; numbers.len(), 0);
    numbers.push(7)?;
    numbers.push(9)?;
    assert_eq!(rt; numbers.as_slice(), [7, 9].as_slice());
    assert_eq!(rt; *numbers.at(1), 9);
    let text = Text::copy_of(alloc, "h\u{e9}llo")?;
    assert_eq!(rt; text.as_bytes().len(), 6);
    let copy = text.copy(alloc)?;
    assert_eq!(rt; copy.as_str(), "h\u{e9}llo");
    let moved = Text::from_string(String::from_str(alloc, "x")?);
    assert_eq!(rt; moved.as_str(), "x");
    Ok(())
}
