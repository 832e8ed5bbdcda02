//! Texts, and where rule 1 refuses them.
use crate::parser::{parse, parse_body};
use sql_ast::Refusal;
use std::alloc::Global;
use std::test::Fail;

/// Whether a text is read, or where rule 1 is broken.
fn outcome(alloc: Global, text: &[u8]) -> Result<(), u64> {
    match parse(alloc, text) {
        Ok(_) => Ok(()),
        Err(Refusal::Rule { place, .. }) => Err(place),
        Err(Refusal::OutOfMemory) => Err(2000),
    }
}

#[test]
fn reads(rt: HostRuntime) -> Result<(), Fail> {
    let rows: [(&[u8], Result<(), u64>); 23] = [
        (b"SELECT 1;;", Err(9)),
        (b"SELECT 1 /*", Err(9)),
        (b"SELECT a FROM t WHERE a = 2", Ok(())),
        (b"SELECT a, FROM t", Ok(())),
        (b"SELECT * EXCEPT (a) REPLACE (1 AS b) FROM t", Ok(())),
        (b"SELECT t.* EXCEPT SELECT 1", Err(18)),
        (b"SELECT t.* EXCEPT ALL SELECT 1", Ok(())),
        (b"SELECT 1 UNION ALL SELECT 2 UNION ALL SELECT 3", Ok(())),
        (
            b"SELECT 1 UNION ALL SELECT 2 UNION DISTINCT SELECT 3",
            Err(34),
        ),
        (b"SELECT 1 UNION ALL SELECT 2 EXCEPT ALL SELECT 3", Err(28)),
        (b"WITH c AS (SELECT 1 AS k) SELECT k FROM c", Ok(())),
        (b"SELECT a FROM t, u RIGHT JOIN v ON TRUE", Err(19)),
        (b"SELECT a FROM t RIGHT JOIN v ON TRUE, u", Ok(())),
        (b"SELECT a FROM t JOIN u", Err(22)),
        (b"SELECT a FROM t JOIN UNNEST([1]) AS x", Ok(())),
        (b"SELECT x FROM UNNEST([1]) AS x WITH OFFSET AS o", Ok(())),
        (b"SELECT a FROM t GROUP BY (a)", Ok(())),
        (
            b"SELECT a FROM t GROUP BY GROUPING SETS ((a), (), a, (a, b), ((SELECT 1) + 1))",
            Ok(()),
        ),
        (
            b"SELECT a FROM t GROUP BY ROLLUP(a, (a, b)) HAVING a > 1 ORDER BY a DESC LIMIT 3 OFFSET 1",
            Ok(()),
        ),
        (
            b"SELECT * FROM p PIVOT(SUM(n) AS total, COUNT(*) AS c FOR q IN ('Q1', 'Q3')) ORDER BY s",
            Ok(()),
        ),
        (
            b"SELECT * FROM p UNPIVOT INCLUDE NULLS (v FOR l IN (a, b AS 'x')) AS u",
            Ok(()),
        ),
        (b"SELECT a FROM t PIVOT", Err(21)),
        (
            b"SELECT v.name, COUNT(*) AS n, SUM(v.cents) AS total, MAX((SELECT MAX(o.day) FROM orders AS o WHERE o.customer = v.customer)) AS latest FROM sales AS v WHERE v.day >= @since AND v.region = @region GROUP BY v.name HAVING SUM(v.cents) > 80 ORDER BY total DESC, v.name LIMIT 10;",
            Ok(()),
        ),
    ];
    for (text, want) in rows {
        assert_eq!(rt; outcome(rt.alloc(), text), want, "at {text:?}");
    }
    Ok(())
}

#[test]
fn reads_terms(rt: HostRuntime) -> Result<(), Fail> {
    let rows: [(&[u8], Result<(), u64>); 11] = [
        (b"(SELECT 1) UNION ALL (SELECT 2) LIMIT 1", Ok(())),
        (b"SELECT ((SELECT 1) UNION ALL SELECT 2)", Ok(())),
        (b"SELECT ((SELECT 1), 2)", Ok(())),
        (b"SELECT (WITH c AS (SELECT 1) SELECT 2)", Ok(())),
        (b"SELECT (WITH(x AS 1, x + 1) + 2, 3)", Ok(())),
        (
            b"SELECT x IN ((SELECT 1)), x IN (1, 2), x IN (SELECT 1)",
            Ok(()),
        ),
        (
            b"SELECT EXISTS(SELECT 1 FROM t AS u WHERE u.a = t.a)",
            Ok(()),
        ),
        (b"SELECT DISTINCT AS STRUCT 1 AS a", Ok(())),
        (b"SELECT a FROM t,", Err(16)),
        (b"", Err(0)),
        (b"SELECT (a + 1", Err(13)),
    ];
    for (text, want) in rows {
        assert_eq!(rt; outcome(rt.alloc(), text), want, "at {text:?}");
    }
    Ok(())
}

#[test]
fn bodies(rt: HostRuntime) -> Result<(), Fail> {
    let rows: [(&[u8], Result<(), u64>); 12] = [
        (b"a + 2 * b", Ok(())),
        (b"NOT a = b AND c OR d", Ok(())),
        (b"CASE x WHEN 1 THEN 2 ELSE 3 END", Ok(())),
        (b"SAFE.SUBSTR(a, 1)", Ok(())),
        (b"a.b[OFFSET(1)].c", Ok(())),
        (b"f(x, (a, b) -> a + b)", Ok(())),
        (b"a >> 2", Ok(())),
        (b"a LIKE ANY ('x', 'y')", Ok(())),
        (b"a IS NOT DISTINCT FROM b", Ok(())),
        (b"a;", Err(1)),
        (b"a 'x", Err(2)),
        (b"a +", Err(3)),
    ];
    for (text, want) in rows {
        let found = match parse_body(rt.alloc(), text) {
            Ok(_) => Ok(()),
            Err(Refusal::Rule { place, .. }) => Err(place),
            Err(Refusal::OutOfMemory) => Err(2000),
        };
        assert_eq!(rt; found, want, "at {text:?}");
    }
    Ok(())
}
