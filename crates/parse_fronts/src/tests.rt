//! The expression at the front of the tokens from an index on.
use crate::parse_expression;
use sql_ast::Refusal;
use sql_lexer::lex;
use std::alloc::Global;
use std::test::Fail;

/// The index behind the expression, or where rule 1 is broken.
fn front(alloc: Global, text: &[u8], at: usize) -> Result<usize, u64> {
    match lex(alloc, text) {
        Ok(tokens) => {
            if tokens.len() < at {
                return Err(1000);
            }
            match parse_expression(alloc, &tokens, at) {
                Ok((_, end)) => Ok(end),
                Err(Refusal::Rule { place, .. }) => Err(place),
                Err(Refusal::OutOfMemory) => Err(2000),
            }
        }
        Err(_) => Err(3000),
    }
}

#[test]
fn fronts(rt: HostRuntime) -> Result<(), Fail> {
    let rows: [(&[u8], usize, Result<usize, u64>); 12] = [
        (b"a + b FROM t", 0, Ok(3)),
        (b"SELECT a FROM t WHERE a = 2", 5, Ok(8)),
        (b"a.*", 0, Ok(1)),
        (b"a.b.* FROM t", 0, Ok(3)),
        (b"a + b.*, c.*", 0, Ok(3)),
        (b"a + b.*, c.*", 6, Ok(7)),
        (b"a IS NULL.*", 0, Ok(3)),
        (b"(a.*)", 0, Err(3)),
        (b"CAST(a.* AS INT64)", 0, Err(7)),
        (b"(SELECT t.* FROM t) + 1", 0, Ok(10)),
        (b"a +", 0, Err(3)),
        (b"a", 1, Err(1)),
    ];
    for (text, at, want) in rows {
        assert_eq!(rt; front(rt.alloc(), text, at), want, "at {text:?}");
    }
    Ok(())
}
