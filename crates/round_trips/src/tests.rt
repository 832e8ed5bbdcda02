//! Texts of queries, and their canonical print.
use parse_query::parse;
use sql_ast::Refusal;
use sql_print::print_query;
use sql_types::{Bytes, Items};
use std::alloc::Global;
use std::test::Fail;

const SALES: &[u8] =
    b"SELECT v.name, COUNT(*) AS n, SUM(v.cents) AS total, MAX((SELECT MAX(o.day) FROM orders AS o WHERE o.customer = v.customer)) AS latest FROM sales AS v WHERE v.day >= @since AND v.region = @region GROUP BY v.name HAVING SUM(v.cents) > 80 ORDER BY total DESC, v.name LIMIT 10";

/// The print of the query of a text.
fn printed(alloc: Global, text: &[u8]) -> Result<Bytes, Refusal> {
    let query = parse(alloc, text)?;
    Ok(print_query(alloc, query.get())?)
}

/// The same as a text, or nothing where there is none.
fn print_of(alloc: Global, text: &[u8]) -> Bytes {
    match printed(alloc, text) {
        Ok(print) => print,
        Err(_) => Items::new(alloc),
    }
}

#[test]
fn prints(rt: HostRuntime) -> Result<(), Fail> {
    let rows: [(&[u8], &[u8]); 18] = [
        (SALES, SALES),
        (b"select a, from t;", b"SELECT a FROM t"),
        (
            b"SELECT a-(b-c), (a-b)-c, ((a+b))*c, (a)+b*c",
            b"SELECT a - (b - c), (a - b) - c, (a + b) * c, a + b * c",
        ),
        (b"SELECT -a, - -a, -(-a)", b"SELECT - a, - - a, - (- a)"),
        (
            b"SELECT a<>b, NOT a=b, (NOT a)=b, (a AND b) OR c, a AND (b OR c)",
            b"SELECT a != b, NOT a = b, (NOT a) = b, a AND b OR c, a AND (b OR c)",
        ),
        (
            b"SELECT count( * ), f(distinct a), if(a,b,c), SAFE.f(a), f(x->x+1)",
            b"SELECT count(*), f(DISTINCT a), IF(a, b, c), SAFE.f(a), f(x -> x + 1)",
        ),
        (
            b"SELECT ARRAY[1,0x10], ARRAY<STRUCT<x INT64,STRING>>[], a.b.c",
            b"SELECT [1, 16], ARRAY<STRUCT<x INT64, STRING>>[], a.b.c",
        ),
        (
            b"SELECT `select`, `a b`, `abc`, `tick\\`` FROM t x",
            b"SELECT `select`, `a b`, abc, `tick\\`` FROM t AS x",
        ),
        (
            b"SELECT 'a\"b\\n\\x01\\x7f', b'a\\xff', DATE '2024-01-05'",
            b"SELECT \"a\\\"b\\n\\x01\\x7f\", b\"a\\xff\", DATE \"2024-01-05\"",
        ),
        (
            b"SELECT ALL a FROM t INNER JOIN u USING(k) LEFT OUTER JOIN v ON TRUE ORDER BY a ASC, b DESC",
            b"SELECT a FROM t JOIN u USING (k) LEFT JOIN v ON TRUE ORDER BY a, b DESC",
        ),
        (
            b"SELECT x IN ((SELECT 1)), x NOT IN (1,2), EXISTS(SELECT 1)",
            b"SELECT x IN ((SELECT 1)), x NOT IN (1, 2), EXISTS (SELECT 1)",
        ),
        (
            b"WITH c AS (SELECT 1 k) SELECT * EXCEPT(k) REPLACE(1 AS b), c.* FROM c",
            b"WITH c AS (SELECT 1 AS k) SELECT * EXCEPT (k) REPLACE (1 AS b), c.* FROM c",
        ),
        (
            b"SELECT a FROM t GROUP BY ROLLUP(a,(b,c)) HAVING a>1 LIMIT 3 OFFSET 1",
            b"SELECT a FROM t GROUP BY ROLLUP (a, (b, c)) HAVING a > 1 LIMIT 3 OFFSET 1",
        ),
        (
            b"(SELECT 1) union all select 2",
            b"(SELECT 1) UNION ALL SELECT 2",
        ),
        (
            b"SELECT CASE a WHEN 1 THEN 'x' ELSE NULL END, a BETWEEN 1 AND 2",
            b"SELECT CASE a WHEN 1 THEN \"x\" ELSE NULL END, a BETWEEN 1 AND 2",
        ),
        (
            b"SELECT CAST(a AS ARRAY<INT64>), a IS NOT NULL, a LIKE ANY('x')",
            b"SELECT CAST (a AS ARRAY<INT64>), a IS NOT NULL, a LIKE ANY (\"x\")",
        ),
        (
            b"SELECT * FROM p PIVOT(SUM(n) total, COUNT(*) AS c FOR q IN ('Q1','Q3')) ORDER BY s",
            b"SELECT * FROM p PIVOT (SUM(n) AS total, COUNT(*) AS c FOR q IN (\"Q1\", \"Q3\")) ORDER BY s",
        ),
        (
            b"SELECT x FROM UNNEST([1]) x WITH OFFSET o, t.b AS y",
            b"SELECT x FROM UNNEST ([1]) AS x WITH OFFSET AS o, t.b AS y",
        ),
    ];
    for (text, print) in rows {
        let once = print_of(rt.alloc(), text);
        assert_eq!(rt; once.as_slice(), print, "at {text:?}");
        let again = print_of(rt.alloc(), once.as_slice());
        assert_eq!(rt; again.as_slice(), print, "at {text:?}");
    }
    Ok(())
}
