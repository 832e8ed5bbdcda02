//! Expressions, each in a box.
ghost use Rattle.std.specs.Prelude.{◌≡◌, IfOk};
ghost use Rattle.sql_ast.specs.declared.expr.Expr.TheVariants as e;

use sql_ast::{
    Aliased, Binding, Call, Comparison, Expr, IsTest, Link, Name, Part, Prefix, Quantifier, Query,
    TypeField, TypeSpelling, When,
};
use sql_types::{Boxed, Bytes, Items, OutOfMemory, Text};
use std::alloc::Global;

/// `Expr::Or`: an expression.
pub fn or(
    alloc: Global,
    first: Boxed<Expr>,
    rest: Items<Link<Expr>>,
    place: u64,
) -> Result<Boxed<Expr>, OutOfMemory>
    ensures { IfOk result (λ node. node ≡ e.Or first rest place) }
{
    Ok(Boxed::new(alloc, Expr::Or { first, rest, place })?)
}

/// `Expr::And`: an expression.
pub fn and(
    alloc: Global,
    first: Boxed<Expr>,
    rest: Items<Link<Expr>>,
    place: u64,
) -> Result<Boxed<Expr>, OutOfMemory>
    ensures { IfOk result (λ node. node ≡ e.And first rest place) }
{
    Ok(Boxed::new(alloc, Expr::And { first, rest, place })?)
}

/// `Expr::Not`: a run of NOT, with the place of each.
pub fn not(
    alloc: Global,
    operators: Items<u64>,
    operand: Boxed<Expr>,
    place: u64,
) -> Result<Boxed<Expr>, OutOfMemory>
    ensures { IfOk result (λ node. node ≡ e.Not operators operand place) }
{
    Ok(Boxed::new(
        alloc,
        Expr::Not {
            operators,
            operand,
            place,
        },
    )?)
}

/// `Expr::BitOr`: an expression.
pub fn bit_or(
    alloc: Global,
    first: Boxed<Expr>,
    rest: Items<Link<Expr>>,
    place: u64,
) -> Result<Boxed<Expr>, OutOfMemory>
    ensures { IfOk result (λ node. node ≡ e.BitOr first rest place) }
{
    Ok(Boxed::new(alloc, Expr::BitOr { first, rest, place })?)
}

/// `Expr::BitXor`: an expression.
pub fn bit_xor(
    alloc: Global,
    first: Boxed<Expr>,
    rest: Items<Link<Expr>>,
    place: u64,
) -> Result<Boxed<Expr>, OutOfMemory>
    ensures { IfOk result (λ node. node ≡ e.BitXor first rest place) }
{
    Ok(Boxed::new(alloc, Expr::BitXor { first, rest, place })?)
}

/// `Expr::BitAnd`: an expression.
pub fn bit_and(
    alloc: Global,
    first: Boxed<Expr>,
    rest: Items<Link<Expr>>,
    place: u64,
) -> Result<Boxed<Expr>, OutOfMemory>
    ensures { IfOk result (λ node. node ≡ e.BitAnd first rest place) }
{
    Ok(Boxed::new(alloc, Expr::BitAnd { first, rest, place })?)
}

/// `Expr::Shift`: an expression.
pub fn shift(
    alloc: Global,
    first: Boxed<Expr>,
    rest: Items<Link<Expr>>,
    place: u64,
) -> Result<Boxed<Expr>, OutOfMemory>
    ensures { IfOk result (λ node. node ≡ e.Shift first rest place) }
{
    Ok(Boxed::new(alloc, Expr::Shift { first, rest, place })?)
}

/// `Expr::Sum`: an expression.
pub fn sum(
    alloc: Global,
    first: Boxed<Expr>,
    rest: Items<Link<Expr>>,
    place: u64,
) -> Result<Boxed<Expr>, OutOfMemory>
    ensures { IfOk result (λ node. node ≡ e.Sum first rest place) }
{
    Ok(Boxed::new(alloc, Expr::Sum { first, rest, place })?)
}

/// `Expr::Product`: an expression.
pub fn product(
    alloc: Global,
    first: Boxed<Expr>,
    rest: Items<Link<Expr>>,
    place: u64,
) -> Result<Boxed<Expr>, OutOfMemory>
    ensures { IfOk result (λ node. node ≡ e.Product first rest place) }
{
    Ok(Boxed::new(alloc, Expr::Product { first, rest, place })?)
}

/// `Expr::Unary`: a run of `+`, `-` and `~`.
pub fn unary(
    alloc: Global,
    operators: Items<Prefix>,
    operand: Boxed<Expr>,
    place: u64,
) -> Result<Boxed<Expr>, OutOfMemory>
    ensures { IfOk result (λ node. node ≡ e.Unary operators operand place) }
{
    Ok(Boxed::new(
        alloc,
        Expr::Unary {
            operators,
            operand,
            place,
        },
    )?)
}

/// `Expr::Compare`: an expression.
pub fn compare(
    alloc: Global,
    left: Boxed<Expr>,
    operator: Comparison,
    operator_place: u64,
    right: Boxed<Expr>,
    place: u64,
) -> Result<Boxed<Expr>, OutOfMemory>
    ensures { IfOk result (λ node. node ≡ e.Compare left operator operator_place right place) }
{
    Ok(Boxed::new(
        alloc,
        Expr::Compare {
            left,
            operator,
            operator_place,
            right,
            place,
        },
    )?)
}

/// `Expr::Like`: an expression.
pub fn like(
    alloc: Global,
    left: Boxed<Expr>,
    negated: bool,
    operator_place: u64,
    right: Boxed<Expr>,
    place: u64,
) -> Result<Boxed<Expr>, OutOfMemory>
    ensures { IfOk result (λ node. node ≡ e.Like left negated operator_place right place) }
{
    Ok(Boxed::new(
        alloc,
        Expr::Like {
            left,
            negated,
            operator_place,
            right,
            place,
        },
    )?)
}

/// `Expr::LikeList`: `LIKE ANY (..)`
pub fn like_list(
    alloc: Global,
    left: Boxed<Expr>,
    quantifier: Quantifier,
    operator_place: u64,
    patterns: Items<Expr>,
    place: u64,
) -> Result<Boxed<Expr>, OutOfMemory>
    ensures { IfOk result (λ node. node ≡ e.LikeList left quantifier operator_place patterns place) }
{
    Ok(Boxed::new(
        alloc,
        Expr::LikeList {
            left,
            quantifier,
            operator_place,
            patterns,
            place,
        },
    )?)
}

/// `Expr::LikeUnnest`: `LIKE ANY UNNEST(..)`
pub fn like_unnest(
    alloc: Global,
    left: Boxed<Expr>,
    quantifier: Quantifier,
    operator_place: u64,
    array: Boxed<Expr>,
    place: u64,
) -> Result<Boxed<Expr>, OutOfMemory>
    ensures { IfOk result (λ node. node ≡ e.LikeUnnest left quantifier operator_place array place) }
{
    Ok(Boxed::new(
        alloc,
        Expr::LikeUnnest {
            left,
            quantifier,
            operator_place,
            array,
            place,
        },
    )?)
}

/// `Expr::Between`: an expression.
pub fn between(
    alloc: Global,
    subject: Boxed<Expr>,
    negated: bool,
    operator_place: u64,
    low: Boxed<Expr>,
    high: Boxed<Expr>,
    place: u64,
) -> Result<Boxed<Expr>, OutOfMemory>
    ensures { IfOk result (λ node. node ≡ e.Between subject negated operator_place low high place) }
{
    Ok(Boxed::new(
        alloc,
        Expr::Between {
            subject,
            negated,
            operator_place,
            low,
            high,
            place,
        },
    )?)
}

/// `Expr::InList`: an expression.
pub fn in_list(
    alloc: Global,
    left: Boxed<Expr>,
    negated: bool,
    operator_place: u64,
    list: Items<Expr>,
    place: u64,
) -> Result<Boxed<Expr>, OutOfMemory>
    ensures { IfOk result (λ node. node ≡ e.InList left negated operator_place list place) }
{
    Ok(Boxed::new(
        alloc,
        Expr::InList {
            left,
            negated,
            operator_place,
            list,
            place,
        },
    )?)
}

/// `Expr::InQuery`: `IN (query)`, with the place of the bracket.
pub fn in_query(
    alloc: Global,
    left: Boxed<Expr>,
    negated: bool,
    operator_place: u64,
    query: Boxed<Query>,
    open_place: u64,
    place: u64,
) -> Result<Boxed<Expr>, OutOfMemory>
    ensures { IfOk result (λ node. node ≡ e.InQuery left negated operator_place query open_place place) }
{
    Ok(Boxed::new(
        alloc,
        Expr::InQuery {
            left,
            negated,
            operator_place,
            query,
            open_place,
            place,
        },
    )?)
}

/// `Expr::InUnnest`: an expression.
pub fn in_unnest(
    alloc: Global,
    left: Boxed<Expr>,
    negated: bool,
    operator_place: u64,
    array: Boxed<Expr>,
    place: u64,
) -> Result<Boxed<Expr>, OutOfMemory>
    ensures { IfOk result (λ node. node ≡ e.InUnnest left negated operator_place array place) }
{
    Ok(Boxed::new(
        alloc,
        Expr::InUnnest {
            left,
            negated,
            operator_place,
            array,
            place,
        },
    )?)
}

/// `Expr::Is`: `IS [NOT] (NULL | TRUE | FALSE)`
pub fn is(
    alloc: Global,
    left: Boxed<Expr>,
    negated: bool,
    test: IsTest,
    operator_place: u64,
    place: u64,
) -> Result<Boxed<Expr>, OutOfMemory>
    ensures { IfOk result (λ node. node ≡ e.Is left negated test operator_place place) }
{
    Ok(Boxed::new(
        alloc,
        Expr::Is {
            left,
            negated,
            test,
            operator_place,
            place,
        },
    )?)
}

/// `Expr::Distinct`: `IS [NOT] DISTINCT FROM`
pub fn distinct(
    alloc: Global,
    left: Boxed<Expr>,
    negated: bool,
    operator_place: u64,
    right: Boxed<Expr>,
    place: u64,
) -> Result<Boxed<Expr>, OutOfMemory>
    ensures { IfOk result (λ node. node ≡ e.Distinct left negated operator_place right place) }
{
    Ok(Boxed::new(
        alloc,
        Expr::Distinct {
            left,
            negated,
            operator_place,
            right,
            place,
        },
    )?)
}

/// `Expr::Postfix`: fields and subscripts behind an expression.
pub fn postfix(
    alloc: Global,
    first: Boxed<Expr>,
    parts: Items<Part<Expr>>,
    place: u64,
) -> Result<Boxed<Expr>, OutOfMemory>
    ensures { IfOk result (λ node. node ≡ e.Postfix first parts place) }
{
    Ok(Boxed::new(
        alloc,
        Expr::Postfix {
            first,
            parts,
            place,
        },
    )?)
}

/// `Expr::Integer`: an expression.
pub fn integer(alloc: Global, value: u64, place: u64) -> Result<Boxed<Expr>, OutOfMemory>
    ensures { IfOk result (λ node. node ≡ e.Integer value place) }
{
    Ok(Boxed::new(alloc, Expr::Integer { value, place })?)
}

/// `Expr::Text`: an expression.
pub fn text(alloc: Global, value: Text, place: u64) -> Result<Boxed<Expr>, OutOfMemory>
    ensures { IfOk result (λ node. node ≡ e.Text value place) }
{
    Ok(Boxed::new(alloc, Expr::Text { value, place })?)
}

/// `Expr::Bytes`: an expression.
pub fn bytes(alloc: Global, value: Bytes, place: u64) -> Result<Boxed<Expr>, OutOfMemory>
    ensures { IfOk result (λ node. node ≡ e.Bytes value place) }
{
    Ok(Boxed::new(alloc, Expr::Bytes { value, place })?)
}

/// `Expr::Bool`: an expression.
pub fn truth(alloc: Global, value: bool, place: u64) -> Result<Boxed<Expr>, OutOfMemory>
    ensures { IfOk result (λ node. node ≡ e.Bool value place) }
{
    Ok(Boxed::new(alloc, Expr::Bool { value, place })?)
}

/// `Expr::Null`: an expression.
pub fn null(alloc: Global, place: u64) -> Result<Boxed<Expr>, OutOfMemory>
    ensures { IfOk result (λ node. node ≡ e.Null place) }
{
    Ok(Boxed::new(alloc, Expr::Null { place })?)
}

/// `Expr::Date`: `DATE string`
pub fn date(alloc: Global, text: Text, place: u64) -> Result<Boxed<Expr>, OutOfMemory>
    ensures { IfOk result (λ node. node ≡ e.Date text place) }
{
    Ok(Boxed::new(alloc, Expr::Date { text, place })?)
}

/// `Expr::Parameter`: an expression.
pub fn parameter(alloc: Global, name: Text, place: u64) -> Result<Boxed<Expr>, OutOfMemory>
    ensures { IfOk result (λ node. node ≡ e.Parameter name place) }
{
    Ok(Boxed::new(alloc, Expr::Parameter { name, place })?)
}

/// `Expr::Name`: a name, which begins a path.
pub fn name(alloc: Global, name: Text, place: u64) -> Result<Boxed<Expr>, OutOfMemory>
    ensures { IfOk result (λ node. node ≡ e.Name name place) }
{
    Ok(Boxed::new(alloc, Expr::Name { name, place })?)
}

/// `Expr::Call`: an expression.
pub fn call(alloc: Global, call: Boxed<Call<Expr>>, place: u64) -> Result<Boxed<Expr>, OutOfMemory>
    ensures { IfOk result (λ node. node ≡ e.Call call place) }
{
    Ok(Boxed::new(
        alloc,
        Expr::Call {
            call: call.into_inner(),
            place,
        },
    )?)
}

/// `Expr::SafeCall`: `SAFE.call`
pub fn safe_call(
    alloc: Global,
    call: Boxed<Call<Expr>>,
    place: u64,
) -> Result<Boxed<Expr>, OutOfMemory>
    ensures { IfOk result (λ node. node ≡ e.SafeCall call place) }
{
    Ok(Boxed::new(
        alloc,
        Expr::SafeCall {
            call: call.into_inner(),
            place,
        },
    )?)
}

/// `Expr::Scalar`: `(query)`
pub fn scalar(alloc: Global, query: Boxed<Query>, place: u64) -> Result<Boxed<Expr>, OutOfMemory>
    ensures { IfOk result (λ node. node ≡ e.Scalar query place) }
{
    Ok(Boxed::new(alloc, Expr::Scalar { query, place })?)
}

/// `Expr::Tuple`: `(expr, expr ..)`
pub fn tuple(alloc: Global, parts: Items<Expr>, place: u64) -> Result<Boxed<Expr>, OutOfMemory>
    ensures { IfOk result (λ node. node ≡ e.Tuple parts place) }
{
    Ok(Boxed::new(alloc, Expr::Tuple { parts, place })?)
}

/// `Expr::Case`: an expression.
pub fn case(
    alloc: Global,
    subject: Option<Boxed<Expr>>,
    branches: Items<When<Expr>>,
    otherwise: Option<Boxed<Expr>>,
    place: u64,
) -> Result<Boxed<Expr>, OutOfMemory>
    ensures { IfOk result (λ node. node ≡ e.Case subject branches otherwise place) }
{
    Ok(Boxed::new(
        alloc,
        Expr::Case {
            subject,
            branches,
            otherwise,
            place,
        },
    )?)
}

/// `Expr::Cast`: CAST, or SAFE_CAST where `safe` holds.
pub fn cast(
    alloc: Global,
    safe: bool,
    expr: Boxed<Expr>,
    ty: TypeSpelling,
    place: u64,
) -> Result<Boxed<Expr>, OutOfMemory>
    ensures { IfOk result (λ node. node ≡ e.Cast safe expr ty place) }
{
    Ok(Boxed::new(
        alloc,
        Expr::Cast {
            safe,
            expr,
            ty,
            place,
        },
    )?)
}

/// `Expr::Extract`: an expression.
pub fn extract(
    alloc: Global,
    part: Name,
    expr: Boxed<Expr>,
    place: u64,
) -> Result<Boxed<Expr>, OutOfMemory>
    ensures { IfOk result (λ node. node ≡ e.Extract part expr place) }
{
    Ok(Boxed::new(alloc, Expr::Extract { part, expr, place })?)
}

/// `Expr::Grouping`: an expression.
pub fn grouping(
    alloc: Global,
    argument: Boxed<Expr>,
    place: u64,
) -> Result<Boxed<Expr>, OutOfMemory>
    ensures { IfOk result (λ node. node ≡ e.Grouping argument place) }
{
    Ok(Boxed::new(alloc, Expr::Grouping { argument, place })?)
}

/// `Expr::Exists`: an expression.
pub fn exists(alloc: Global, query: Boxed<Query>, place: u64) -> Result<Boxed<Expr>, OutOfMemory>
    ensures { IfOk result (λ node. node ≡ e.Exists query place) }
{
    Ok(Boxed::new(alloc, Expr::Exists { query, place })?)
}

/// `Expr::ArrayQuery`: `ARRAY (query)`, with the place of the bracket.
pub fn array_query(
    alloc: Global,
    query: Boxed<Query>,
    open_place: u64,
    place: u64,
) -> Result<Boxed<Expr>, OutOfMemory>
    ensures { IfOk result (λ node. node ≡ e.ArrayQuery query open_place place) }
{
    Ok(Boxed::new(
        alloc,
        Expr::ArrayQuery {
            query,
            open_place,
            place,
        },
    )?)
}

/// `Expr::Array`: `[..]`, with the element type where `ARRAY<type>` stands before it, and the place of the bracket.
pub fn array(
    alloc: Global,
    element: Option<TypeSpelling>,
    items: Items<Expr>,
    open_place: u64,
    place: u64,
) -> Result<Boxed<Expr>, OutOfMemory>
    ensures { IfOk result (λ node. node ≡ e.Array element items open_place place) }
{
    Ok(Boxed::new(
        alloc,
        Expr::Array {
            element,
            items,
            open_place,
            place,
        },
    )?)
}

/// `Expr::Struct`: `STRUCT(expr [AS name], ..)`
pub fn structure(
    alloc: Global,
    parts: Items<Aliased<Expr>>,
    place: u64,
) -> Result<Boxed<Expr>, OutOfMemory>
    ensures { IfOk result (λ node. node ≡ e.Struct parts place) }
{
    Ok(Boxed::new(alloc, Expr::Struct { parts, place })?)
}

/// `Expr::TypedStruct`: `STRUCT<fields>(..)`, with the place of the round bracket.
pub fn typed_structure(
    alloc: Global,
    fields: Items<TypeField<TypeSpelling>>,
    parts: Items<Expr>,
    open_place: u64,
    place: u64,
) -> Result<Boxed<Expr>, OutOfMemory>
    ensures { IfOk result (λ node. node ≡ e.TypedStruct fields parts open_place place) }
{
    Ok(Boxed::new(
        alloc,
        Expr::TypedStruct {
            fields,
            parts,
            open_place,
            place,
        },
    )?)
}

/// `Expr::With`: `WITH(name AS expr, .., expr)`
pub fn with(
    alloc: Global,
    bindings: Items<Binding<Expr>>,
    outcome: Boxed<Expr>,
    place: u64,
) -> Result<Boxed<Expr>, OutOfMemory>
    ensures { IfOk result (λ node. node ≡ e.With bindings outcome place) }
{
    Ok(Boxed::new(
        alloc,
        Expr::With {
            bindings,
            result: outcome,
            place,
        },
    )?)
}
