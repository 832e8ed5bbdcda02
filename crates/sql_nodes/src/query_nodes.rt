//! Queries, SELECT and FROM, each in a box.
ghost use Rattle.std.specs.Prelude.{◌≡◌, IfOk};
ghost use Rattle.sql_ast.specs.declared.query.Primary.TheVariants as primarys;
ghost use Rattle.sql_ast.specs.declared.query.Term.TheVariants as terms;
ghost use Rattle.sql_ast.specs.declared.query.FromItem.{roll-FromItem};
ghost use Rattle.sql_ast.specs.declared.query.Joined.{roll-Joined};
ghost use Rattle.sql_ast.specs.declared.query.Query.{roll-Query};
ghost use Rattle.sql_ast.specs.declared.query.Select.{roll-Select};

use crate::boxes::out_of;
use sql_ast::{
    Body, Cte, Expr, FilterPart, FromItem, Groups, Item, JoinWord, Joined, LimitPart, Name, On,
    Primary, Query, Select, SetTerm, Sort, Term, Turned, WithOffset,
};
use sql_types::{Boxed, Items, OutOfMemory, SetKind};
use std::alloc::Global;

/// `[WITH ctes] body [ORDER BY ..] [LIMIT ..]`
pub fn query(
    alloc: Global,
    ctes: Items<Cte<Query>>,
    body: Boxed<Body<Term>>,
    order: Items<Sort<Expr>>,
    limit: Option<LimitPart<Expr>>,
    place: u64,
) -> Result<Boxed<Query>, OutOfMemory>
    ensures { IfOk result (λ node. node ≡ roll-Query (record { ctes = ctes; body = body; order = order; limit = limit; place = place })) }
{
    Ok(Boxed::new(
        alloc,
        Query {
            ctes,
            body: body.into_inner(),
            order,
            limit,
            place,
        },
    )?)
}

/// `name AS (query)`
pub fn cte(alloc: Global, name: Name, query: Boxed<Query>) -> Result<Boxed<Cte<Query>>, OutOfMemory>
    ensures { IfOk result (λ node. node ≡ record { name = name; query = query }) }
{
    Ok(Boxed::new(
        alloc,
        Cte {
            name,
            query: query.into_inner(),
        },
    )?)
}

/// Terms joined by set operations, all of one kind.
pub fn body(
    alloc: Global,
    first: Boxed<Term>,
    rest: Items<SetTerm<Term>>,
    place: u64,
) -> Result<Boxed<Body<Term>>, OutOfMemory>
    ensures { IfOk result (λ node. node ≡ record { first = first; rest = rest; place = place }) }
{
    Ok(Boxed::new(
        alloc,
        Body {
            first: first.into_inner(),
            rest,
            place,
        },
    )?)
}

/// A set operation, with the place of its first word, and the term after it.
pub fn set_term(
    alloc: Global,
    kind: SetKind,
    term: Boxed<Term>,
    place: u64,
) -> Result<Boxed<SetTerm<Term>>, OutOfMemory>
    ensures { IfOk result (λ node. node ≡ record { kind = kind; term = term; place = place }) }
{
    Ok(Boxed::new(
        alloc,
        SetTerm {
            kind,
            term: term.into_inner(),
            place,
        },
    )?)
}

/// `Term::Select`: a SELECT, or a query in brackets.
pub fn term_select(alloc: Global, select: Boxed<Select>) -> Result<Boxed<Term>, OutOfMemory>
    ensures { IfOk result (λ node. node ≡ terms.Select select) }
{
    Ok(Boxed::new(alloc, Term::Select { select })?)
}

/// `Term::Query`: a SELECT, or a query in brackets.
pub fn term_query(
    alloc: Global,
    query: Boxed<Query>,
    place: u64,
) -> Result<Boxed<Term>, OutOfMemory>
    ensures { IfOk result (λ node. node ≡ terms.Query query place) }
{
    Ok(Boxed::new(alloc, Term::Query { query, place })?)
}

/// `SELECT [ALL | DISTINCT] [AS STRUCT] items [FROM ..] [WHERE ..] [GROUP BY ..] [HAVING ..]`
pub fn select(
    alloc: Global,
    distinct: bool,
    as_struct: bool,
    items: Items<Item<Expr>>,
    from: Option<Boxed<FromItem>>,
    filter: Option<Boxed<Expr>>,
    grouping: Option<Boxed<Groups<Expr>>>,
    having: Option<Boxed<FilterPart<Expr>>>,
    place: u64,
) -> Result<Boxed<Select>, OutOfMemory>
    ensures { IfOk result (λ node. node ≡ roll-Select (record { distinct = distinct; as_struct = as_struct; items = items; from = from; filter = filter; grouping = grouping; having = having; place = place })) }
{
    Ok(Boxed::new(
        alloc,
        Select {
            distinct,
            as_struct,
            items,
            from,
            filter,
            grouping: out_of(grouping),
            having: out_of(having),
            place,
        },
    )?)
}

/// What follows FROM: items joined from the left.
pub fn from_item(
    alloc: Global,
    first: Boxed<Primary>,
    rest: Items<Joined>,
    place: u64,
) -> Result<Boxed<FromItem>, OutOfMemory>
    ensures { IfOk result (λ node. node ≡ roll-FromItem (record { first = first; rest = rest; place = place })) }
{
    Ok(Boxed::new(
        alloc,
        FromItem {
            first: first.into_inner(),
            rest,
            place,
        },
    )?)
}

/// A comma or a join, with the place of its first word, and the item after it.
pub fn joined(
    alloc: Global,
    word: JoinWord,
    primary: Boxed<Primary>,
    condition: Option<Boxed<On<Expr>>>,
    place: u64,
) -> Result<Boxed<Joined>, OutOfMemory>
    ensures { IfOk result (λ node. node ≡ roll-Joined (record { word = word; primary = primary; on = condition; place = place })) }
{
    Ok(Boxed::new(
        alloc,
        Joined {
            word,
            primary: primary.into_inner(),
            on: out_of(condition),
            place,
        },
    )?)
}

/// `Primary::Table`: `name [alias] [turn [alias]]`
pub fn primary_table(
    alloc: Global,
    name: Name,
    alias: Option<Name>,
    turned: Option<Boxed<Turned<Expr>>>,
    place: u64,
) -> Result<Boxed<Primary>, OutOfMemory>
    ensures { IfOk result (λ node. node ≡ primarys.Table name alias turned place) }
{
    Ok(Boxed::new(
        alloc,
        Primary::Table {
            name,
            alias,
            turned: out_of(turned),
            place,
        },
    )?)
}

/// `Primary::Query`: `(query) [alias] [turn [alias]]`
pub fn primary_query(
    alloc: Global,
    query: Boxed<Query>,
    alias: Option<Name>,
    turned: Option<Boxed<Turned<Expr>>>,
    place: u64,
) -> Result<Boxed<Primary>, OutOfMemory>
    ensures { IfOk result (λ node. node ≡ primarys.Query query alias turned place) }
{
    Ok(Boxed::new(
        alloc,
        Primary::Query {
            query,
            alias,
            turned: out_of(turned),
            place,
        },
    )?)
}

/// `Primary::Path`: `name.name.. [alias] [WITH OFFSET [alias]]`
pub fn primary_path(
    alloc: Global,
    path: Items<Name>,
    alias: Option<Name>,
    offset: Option<WithOffset>,
    place: u64,
) -> Result<Boxed<Primary>, OutOfMemory>
    ensures { IfOk result (λ node. node ≡ primarys.Path path alias offset place) }
{
    Ok(Boxed::new(
        alloc,
        Primary::Path {
            path,
            alias,
            offset,
            place,
        },
    )?)
}

/// `Primary::Unnest`: `UNNEST(expr) [alias] [WITH OFFSET [alias]]`
pub fn primary_unnest(
    alloc: Global,
    array: Boxed<Expr>,
    alias: Option<Name>,
    offset: Option<WithOffset>,
    place: u64,
) -> Result<Boxed<Primary>, OutOfMemory>
    ensures { IfOk result (λ node. node ≡ primarys.Unnest array alias offset place) }
{
    Ok(Boxed::new(
        alloc,
        Primary::Unnest {
            array,
            alias,
            offset,
            place,
        },
    )?)
}
