//! Texts with their tokens and places.
use crate::{LexFault, Tokens, lex, nest};
use sql_ast::{Lexeme, Token};
use std::alloc::{AllocError, Global};
use std::test::Fail;

fn lexeme_text(alloc: Global, lexeme: &Lexeme) -> Result<String, AllocError> {
    match lexeme {
        Lexeme::Reserved(word) => format!(in alloc; "{word:?}"),
        Lexeme::Name { name, word } => match word {
            Some(_) => format!(in alloc; "word {}", name.as_str()),
            None => format!(in alloc; "name {}", name.as_str()),
        },
        Lexeme::Integer(number) => format!(in alloc; "{number}"),
        Lexeme::Text(text) => format!(in alloc; "'{}'", text.as_str()),
        Lexeme::Bytes(bytes) => format!(in alloc; "{:?}", bytes.as_slice()),
        Lexeme::Parameter(name) => format!(in alloc; "@{}", name.as_str()),
        Lexeme::Sign(sign) => format!(in alloc; "{sign:?}"),
    }
}

fn token_text(alloc: Global, token: &Token) -> Result<String, AllocError> {
    let what = lexeme_text(alloc, &token.lexeme)?;
    format!(in alloc; " {}-{} {what}", token.start, token.end)
}

/// The end of the text, and its tokens with their places; or the place of the first fault.
fn tokens_text(alloc: Global, text: &[u8]) -> Result<String, AllocError> {
    let tokens = match lex(alloc, text) {
        Ok(tokens) => tokens,
        Err(LexFault::At { place }) => return format!(in alloc; "fault {place}"),
        Err(LexFault::OutOfMemory) => return format!(in alloc; "no memory"),
    };
    let mut shown = format!(in alloc; "end {}", tokens.end())?;
    for index in 0..tokens.len() {
        shown.push_str(token_text(alloc, tokens.at(index))?.as_str())?;
    }
    Ok(shown)
}

/// A text, and what its tokens are.
const ROWS: [(&[u8], &str); 70] = [
    // Words and names.
    (
        b"SELECT a, 'x' from t",
        "end 20 0-6 Select 7-8 name a 8-9 Comma 10-13 'x' 14-18 From 19-20 name t",
    ),
    (
        b"a . /* c */ case",
        "end 16 0-1 name a 2-3 Dot 12-16 name case",
    ),
    (b"1.FROM t", "end 8 0-1 1 1-2 Dot 2-6 name FROM 7-8 name t"),
    (
        b"`select` DATE `date` a.offset",
        "end 29 0-8 name select 9-13 word DATE 14-20 name date 21-22 name a 22-23 Dot 23-29 word offset",
    ),
    (b"_1 selects", "end 10 0-2 name _1 3-10 name selects"),
    (b"`a\\nb\\xe9`", "end 10 0-10 name a\nb\u{e9}"),
    (b"``", "fault 0"),
    (b"`a\nb`", "fault 0"),
    (b"x `a", "fault 2"),
    // White space.
    (b"", "end 0"),
    (b"   ", "end 3"),
    (b"\x0b\x0c\r a \n", "end 7 4-5 name a"),
    (b"a \xc3\xa9", "fault 2"),
    (b"a \0", "fault 2"),
    // Integers.
    (b"007 0xfF 0XFF", "end 13 0-3 7 4-8 255 9-13 255"),
    (
        b"18446744073709551615 0xFFFFFFFFFFFFFFFF",
        "end 39 0-20 18446744073709551615 21-39 18446744073709551615",
    ),
    (b"18446744073709551616", "fault 0"),
    (b"0x10000000000000000", "fault 0"),
    (b"1.5", "end 3 0-1 1 1-2 Dot 2-3 5"),
    (b"1x", "fault 0"),
    (b" 0x", "fault 1"),
    (b"00x1", "fault 0"),
    (b"0xg", "fault 0"),
    (b"1_", "fault 0"),
    (b"1\xc3\xa9", "fault 1"),
    // Literals.
    (b"'' \"\" ''''''", "end 12 0-2 '' 3-5 '' 6-12 ''"),
    (b"'a\"' \"'\"", "end 8 0-4 'a\"' 5-8 '''"),
    (b"''''", "fault 0"),
    (b"  b'abc", "fault 2"),
    (b"'a\nb'", "fault 0"),
    (b"'a\\\nb'", "fault 0"),
    (b"'''a\r\nb\rc'd''e'''", "end 17 0-17 'a\nb\nc'd''e'"),
    (b"'''a''''", "fault 7"),
    (b"r'\\\\'", "end 5 0-5 '\\\\'"),
    (b"r'\\''", "end 5 0-5 '\\''"),
    (b"r'\\'", "fault 0"),
    (b"r'''a\r\n\\\r'''", "end 12 0-12 'a\n\\\n'"),
    (
        b"bR'\\x' Rb\"b\" B'c' br rb",
        "end 23 0-6 [92, 120] 7-12 [98] 13-17 [99] 18-20 name br 21-23 name rb",
    ),
    (b"rr'a'", "end 5 0-2 name rr 2-5 'a'"),
    (b"'\xff'", "fault 0"),
    // Escapes.
    (
        b"'\\a\\b\\f\\n\\r\\t\\v'",
        "end 16 0-16 '\u{7}\u{8}\u{c}\n\r\t\u{b}'",
    ),
    (b"'\\\\\\?\\\"\\'\\`'", "end 12 0-12 '\\?\"'`'"),
    (
        b"'\\xff\\377\\u00ff\\U0001F600'",
        "end 26 0-26 '\u{ff}\u{ff}\u{ff}\u{1f600}'",
    ),
    (
        b"b'\\xFf\\377\\0001\\n'",
        "end 18 0-18 [255, 255, 0, 49, 10]",
    ),
    (b"a '\\400'", "fault 2"),
    (b"b'\\400'", "fault 0"),
    (b"b'\\u0041'", "fault 0"),
    (b"b'\\U00000041'", "fault 0"),
    (b"'\\ud800'", "fault 0"),
    (b"'\\U0010ffff'", "end 12 0-12 '\u{10ffff}'"),
    (b"'\\U00110000'", "fault 0"),
    (b"'\\q'", "fault 0"),
    (b"'\\x4'", "fault 0"),
    (b"'\\12'", "fault 0"),
    (b"'\\128'", "fault 0"),
    (b"`\\u12`", "fault 0"),
    // Parameters.
    (
        b"@select @`x y` @_1",
        "end 18 0-7 @select 8-14 @x y 15-18 @_1",
    ),
    (b"@ x", "fault 0"),
    (b"x @1", "fault 2"),
    (b"@``", "fault 0"),
    // Signs.
    (
        b"()[],.;+-*~&^|=",
        "end 15 0-1 OpenRound 1-2 CloseRound 2-3 OpenSquare 3-4 CloseSquare 4-5 Comma 5-6 Dot 6-7 Semicolon 7-8 Plus 8-9 Minus 9-10 Star 10-11 Tilde 11-12 Ampersand 12-13 Caret 13-14 Bar 14-15 Equal",
    ),
    (
        b"|| != <> < <= << > >= ->",
        "end 24 0-2 BarBar 3-5 BangEqual 6-8 LessGreater 9-10 Less 11-13 LessEqual 14-16 LessLess 17-18 Greater 19-21 GreaterEqual 22-24 Arrow",
    ),
    (b">>=", "end 3 0-1 Greater 1-3 GreaterEqual"),
    (b"a ! b", "fault 2"),
    (b"a / b", "fault 2"),
    // Comments.
    (
        b"a -- c\n b # d\r e /* ** / */ f --",
        "end 32 0-1 name a 8-9 name b 15-16 name e 28-29 name f",
    ),
    (b"a /* /* */ *", "end 12 0-1 name a 11-12 Star"),
    (b"/*/", "fault 0"),
    (b"a /* \xff */", "fault 2"),
    (b"a # \xff", "fault 2"),
];

#[test]
fn tokens_of_texts(rt: HostRuntime) -> Result<(), Fail> {
    for (text, want) in ROWS {
        assert_eq!(rt; tokens_text(rt.alloc(), text)?.as_str(), want);
    }
    Ok(())
}

/// So many letters between a front and a back.
fn long_text(
    alloc: Global,
    front: &[u8],
    letter: u8,
    count: usize,
    back: &[u8],
) -> Result<Vec<u8>, AllocError> {
    let mut text = Vec::from_slice(alloc, front)?;
    for _ in 0..count {
        text.push(letter)?;
    }
    text.extend_from_slice(back)?;
    Ok(text)
}

#[test]
fn long_tokens(rt: HostRuntime) -> Result<(), Fail> {
    // What stands before and behind so many of one letter, and how many tokens there are, or the place of the fault.
    let rows: [(&[u8], u8, usize, &[u8], Result<usize, u64>); 9] = [
        (b"", b'a', 128, b"", Ok(1)),
        (b" ", b'a', 129, b"", Err(1)),
        (b"`", b'a', 128, b"`", Ok(1)),
        (b"`", b'a', 129, b"`", Err(0)),
        (b"`\\n", b'a', 127, b"`", Ok(1)),
        (b"`\\xff", b'a', 127, b"`", Err(0)),
        (b"@", b'a', 128, b"", Ok(1)),
        (b"@", b'a', 129, b"", Err(0)),
        (b"", b'0', 300, b"7", Ok(1)),
    ];
    for (front, letter, count, back, want) in rows {
        let text = long_text(rt.alloc(), front, letter, count, back)?;
        let got = match lex(rt.alloc(), text.as_slice()) {
            Ok(tokens) => Ok(tokens.len()),
            Err(LexFault::At { place }) => Err(place),
            Err(LexFault::OutOfMemory) => Err(u64::MAX),
        };
        assert_eq!(rt; got, want, "at {count} after {front:?}");
    }
    Ok(())
}

#[test]
fn nest_of_texts(rt: HostRuntime) -> Result<(), Fail> {
    let rows: [(&[u8], u64); 8] = [
        (b"", 0),
        (b"a", 0),
        (b"()[()]", 2),
        (b"(([case", 4),
        (b")]end (", 1),
        (b"case (end]case", 2),
        (b"a.case a . case a.end `case`", 0),
        (b"'((' -- ((\n (", 1),
    ];
    for (text, want) in rows {
        let tokens = lex(rt.alloc(), text)?;
        assert_eq!(rt; nest(&tokens), want, "at {text:?}");
    }
    assert_eq!(rt; nest(&Tokens::start(rt.alloc())), 0);
    Ok(())
}
