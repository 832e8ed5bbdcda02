//! Names and their spellings, against the rules of names.
use crate::{Reserved, quote_name, quote_text, reserved_word, same_name};
use lists::Text;
use std::test::Fail;

#[test]
fn texts(rt: HostRuntime) -> Result<(), Fail> {
    let alloc = rt.alloc();
    let table: [(&str, &[u8]); 4] = [
        ("", b"\"\""),
        ("a'`", b"\"a'`\""),
        ("\\\"\n\r\t", b"\"\\\\\\\"\\n\\r\\t\""),
        ("\u{1f}\u{7f}\u{e9}", b"\"\\x1f\\x7f\xc3\xa9\""),
    ];
    for (text, literal) in table {
        let text = Text::copy_of(alloc, text)?;
        assert_eq!(rt; quote_text(alloc, &text)?.as_slice(), literal);
    }
    Ok(())
}

#[test]
fn names(rt: HostRuntime) -> Result<(), Fail> {
    let alloc = rt.alloc();
    let table: [(&str, &[u8]); 5] = [
        ("a_1", b"a_1"),
        ("select", b"`select`"),
        ("date", b"date"),
        ("a b", b"`a b`"),
        ("a`\"\\", b"`a\\`\"\\\\`"),
    ];
    for (name, text) in table {
        let name = Text::copy_of(alloc, name)?;
        assert_eq!(rt; quote_name(alloc, &name)?.as_slice(), text);
    }
    assert_eq!(rt; reserved_word(b"Select"), Some(Reserved::Select));
    assert_eq!(rt; reserved_word(b"pivot"), None);
    assert!(rt; same_name(&Text::copy_of(alloc, "aB")?, &Text::copy_of(alloc, "Ab")?));
    Ok(())
}
