//! Each aggregate on a few values, and the order of all values.
ghost use Rattle.std.specs.Prelude.{◌≡◌, ◌∷◌, [], true, false, length, IfOk};
ghost use Rattle.sql_types.specs.Comparable.{groupable};
ghost use Rattle.sql_types.specs.declared.sql_type.SqlType.TheVariants as types;
ghost use Rattle.sql_types.specs.Fits.{fits};
ghost use Rattle.sql_aggregates.specs.Calls.{lawful, places_from, TakesTypes};

use crate::{Accumulator, AggCall, AggName, identity_order, identity_order_of_rows};
use Plain::{Int, Null, Truth, Uint, Word};
use sql_types::{
    CallFault, FaultKind, Items, SortItem, SqlType, Text, Value, copy_value, fits, groupable, same,
};
use std::alloc::{AllocError, Global};
use std::cmp::Ordering;
use std::process::Abort;
use std::test::Fail;

/// A value as it is written in a table, or OUT_OF_RANGE.
#[derive(Clone, Copy)]
enum Plain {
    Null,
    Truth(bool),
    Int(i64),
    Uint(u64),
    Word(&'static str),
    /// An ARRAY of one NULL.
    OneNull,
    OutOfRange,
}

/// An aggregate, the values of its argument, and the answer.
type Case = (AggName, &'static [Plain], Plain);

const NUMBERS: [Case; 11] = [
    (AggName::Count, &[], Int(0)),
    (AggName::Count, &[Int(5), Null, Int(5)], Int(2)),
    (AggName::Sum, &[Int(300), Null, Int(50)], Int(350)),
    (
        AggName::Sum,
        &[Int(i64::MAX), Int(1), Int(-1)],
        Int(i64::MAX),
    ),
    (AggName::Sum, &[Int(i64::MAX), Int(1)], Plain::OutOfRange),
    (AggName::Sum, &[Null], Null),
    (AggName::Min, &[Null, Int(2), Int(1), Int(2)], Int(1)),
    (AggName::Max, &[Null, Int(1), Int(2), Int(1)], Int(2)),
    (AggName::Min, &[], Null),
    (AggName::AnyValue, &[Null], Null),
    (AggName::AnyValue, &[Int(7)], Int(7)),
];

const UNSIGNED: Case = (AggName::Sum, &[Uint(u64::MAX), Uint(0)], Uint(u64::MAX));

#[test]
fn numbers(rt: HostRuntime) -> Result<(), Fail> {
    for case in NUMBERS {
        check(&rt, rt.alloc(), false, &SqlType::Int64, case)?;
    }
    check(&rt, rt.alloc(), false, &SqlType::Uint64, UNSIGNED)
}

const TRUTHS: [Case; 5] = [
    (AggName::CountIf, &[Truth(true), Truth(false), Null], Int(1)),
    (AggName::LogicalAnd, &[Truth(true), Null], Truth(true)),
    (AggName::LogicalAnd, &[Null], Null),
    (
        AggName::LogicalOr,
        &[Truth(false), Truth(true)],
        Truth(true),
    ),
    (AggName::LogicalOr, &[], Null),
];

#[test]
fn truths(rt: HostRuntime) -> Result<(), Fail> {
    for case in TRUTHS {
        check(&rt, rt.alloc(), false, &SqlType::Bool, case)?;
    }
    Ok(())
}

const WORDS: [Case; 4] = [
    (AggName::StringAgg, &[Null, Word("a")], Word("a")),
    (AggName::ArrayAgg, &[Null], Plain::OneNull),
    (AggName::ArrayAgg, &[], Null),
    (AggName::StringAgg, &[Null], Null),
];

const DISTINCT: [Case; 3] = [
    (
        AggName::Count,
        &[Word("a"), Null, Word("a"), Word("b")],
        Int(2),
    ),
    (AggName::StringAgg, &[Word("a"), Null, Word("a")], Word("a")),
    (AggName::ArrayAgg, &[Null, Null], Plain::OneNull),
];

#[test]
fn words(rt: HostRuntime) -> Result<(), Fail> {
    for case in WORDS {
        check(&rt, rt.alloc(), false, &SqlType::Text, case)?;
    }
    for case in DISTINCT {
        check(&rt, rt.alloc(), true, &SqlType::Text, case)?;
    }
    Ok(())
}

fn check<R: Abort>(
    rt: &R,
    alloc: Global,
    distinct: bool,
    ty: &SqlType,
    case: Case,
) -> Result<(), Fail> {
    let (name, values, answer) = case;
    assert!(rt; takes(name, ty));
    assert!(rt; groupable(ty));
    let call = call_of(alloc, name, distinct);
    let want = value(alloc, answer)?;
    match aggregate(rt, alloc, &call, ty, values)? {
        Ok(got) => assert!(rt; same(&got, &want)),
        Err(fault) => {
            assert!(rt; matches!(answer, Plain::OutOfRange));
            assert_eq!(rt; fault, CallFault::Fault(FaultKind::OutOfRange));
        }
    }
    Ok(())
}

/// The aggregate of these values, each alone in its list.
fn aggregate<R: Abort>(
    rt: &R,
    alloc: Global,
    call: &AggCall,
    ty: &SqlType,
    values: &[Plain],
) -> Result<Result<Value, CallFault>, AllocError>
    requires order { call.now.order ≡ [] }
    requires lawful { lawful call.now ≡ true }
    requires takes { TakesTypes call.now.name (ty.now ∷ []) }
    requires groupable { groupable ty.now ≡ true }
{
    let mut accumulator = Accumulator::start(alloc, call)?;
    for plain in values {
        let list = [fitting(rt, alloc, ty, *plain)?];
        accumulator.add(&list)?;
    }
    Ok(accumulator.finish())
}

fn call_of(alloc: Global, name: AggName, distinct: bool) -> AggCall
    ensures name { result.name ≡ name }
    ensures distinct { result.distinct ≡ distinct }
    ensures order { result.order ≡ [] }
    ensures lawful { lawful result ≡ true }
{
    AggCall {
        name,
        distinct,
        ignore_nulls: false,
        order: Items::new(alloc),
        limit: None,
    }
}

/// Whether the aggregate takes an argument of this type.
fn takes(name: AggName, ty: &SqlType) -> bool
    ensures { result ≡ true → TakesTypes name (ty.now ∷ []) }
{
    match name {
        AggName::Count => true,
        AggName::AnyValue => true,
        AggName::Sum => matches!(ty, SqlType::Int64 | SqlType::Uint64),
        AggName::Min => matches!(ty, SqlType::Int64),
        AggName::Max => matches!(ty, SqlType::Int64),
        AggName::CountIf => matches!(ty, SqlType::Bool),
        AggName::LogicalAnd => matches!(ty, SqlType::Bool),
        AggName::LogicalOr => matches!(ty, SqlType::Bool),
        AggName::StringAgg => matches!(ty, SqlType::Text),
        AggName::ArrayAgg => matches!(ty, SqlType::Text),
    }
}

fn fitting<R: Abort>(rt: &R, alloc: Global, ty: &SqlType, plain: Plain) -> Result<Value, AllocError>
    ensures { IfOk result (λ v. fits ty.now v ≡ true) }
{
    let made = value(alloc, plain)?;
    assert!(rt; fits(&made, ty));
    Ok(made)
}

fn value(alloc: Global, plain: Plain) -> Result<Value, AllocError> {
    match plain {
        Null => Ok(Value::Null),
        Truth(truth) => Ok(Value::Bool(truth)),
        Int(number) => Ok(Value::Int(number)),
        Uint(number) => Ok(Value::Uint(number)),
        Word(word) => Ok(Value::Text(Text::copy_of(alloc, word)?)),
        Plain::OneNull => Ok(Value::Array(row_of(alloc, &[Value::Null])?)),
        Plain::OutOfRange => Ok(Value::Null),
    }
}

/// The rows that COUNT(*) counts have no argument.
#[test]
fn rows_are_counted(rt: HostRuntime) -> Result<(), Fail> {
    assert!(rt; same(&two_rows(rt.alloc())?, &Value::Int(2)));
    Ok(())
}

fn two_rows(alloc: Global) -> Result<Value, CallFault> {
    let call = call_of(alloc, AggName::Count, false);
    let mut accumulator = Accumulator::start(alloc, &call)?;
    for _ in 0..2 {
        accumulator.add(&[])?;
    }
    accumulator.finish()
}

/// ARRAY_AGG(x IGNORE NULLS ORDER BY y DESC LIMIT 2), and with LIMIT 0.
#[test]
fn elements_in_order(rt: HostRuntime) -> Result<(), Fail> {
    let alloc = rt.alloc();
    let want = row_of(alloc, &[Value::Int(3), Value::Int(2)])?;
    assert!(rt; same(&pairs_in_order(&rt, alloc, 2)?, &Value::Array(want)));
    assert!(rt; same(&pairs_in_order(&rt, alloc, 0)?, &Value::Null));
    Ok(())
}

/// x and y.
const PAIRS: [(Plain, Plain); 4] = [
    (Int(1), Int(1)),
    (Null, Int(4)),
    (Int(2), Int(2)),
    (Int(3), Int(3)),
];

fn pairs_in_order<R: Abort>(rt: &R, alloc: Global, limit: u64) -> Result<Value, CallFault> {
    let mut accumulator = Accumulator::start(alloc, &ordered_call(alloc, limit)?)?;
    for (x, y) in PAIRS {
        let x = fitting(rt, alloc, &SqlType::Int64, x)?;
        let y = fitting(rt, alloc, &SqlType::Int64, y)?;
        let list = [x, y];
        accumulator.add(&list)?;
    }
    accumulator.finish()
}

fn ordered_call(alloc: Global, limit: u64) -> Result<AggCall, AllocError>
    ensures { IfOk result (λ call. (call.name ≡ AggName.ArrayAgg) × (call.distinct ≡ false) × (length call.order ≡ 1) × places_from 1 call.order) }
{
    let mut order = Items::new(alloc);
    order.push(SortItem {
        place: 1,
        descending: true,
        nulls_first: false,
    })?;
    Ok(AggCall {
        name: AggName::ArrayAgg,
        distinct: false,
        ignore_nulls: true,
        order,
        limit: Some(limit),
    })
}

/// STRING_AGG of two texts with a separator, and with NULL in its place.
#[test]
fn texts_with_a_separator(rt: HostRuntime) -> Result<(), Fail> {
    let alloc = rt.alloc();
    let want = Value::Text(Text::copy_of(alloc, "a; b")?);
    let separator = fitting(&rt, alloc, &SqlType::Text, Word("; "))?;
    assert!(rt; same(&two_texts(&rt, alloc, &separator)?, &want));
    let separator = fitting(&rt, alloc, &SqlType::Text, Null)?;
    assert!(rt; same(&two_texts(&rt, alloc, &separator)?, &Value::Null));
    Ok(())
}

fn two_texts<R: Abort>(rt: &R, alloc: Global, separator: &Value) -> Result<Value, CallFault>
    requires { fits types.Text separator.now ≡ true }
{
    let call = call_of(alloc, AggName::StringAgg, false);
    let mut accumulator = Accumulator::start(alloc, &call)?;
    for text in [Word("a"), Word("b")] {
        let text = fitting(rt, alloc, &SqlType::Text, text)?;
        let list = [text, copy_value(alloc, separator)?];
        accumulator.add(&list)?;
    }
    accumulator.finish()
}

#[test]
fn values_in_a_total_order(rt: HostRuntime) -> Result<(), Fail> {
    let alloc = rt.alloc();
    let one = row_of(alloc, &[Value::Null, Value::Int(1)])?;
    let other = row_of(alloc, &[Value::Null, Value::Int(2)])?;
    assert_eq!(rt; identity_order_of_rows(&one, &other), Ordering::Less);
    let fields = Value::Struct(one);
    assert_eq!(rt; identity_order(&fields, &fields), Ordering::Equal);
    assert_eq!(rt;
        identity_order(&fields, &Value::Struct(other)),
        Ordering::Less
    );
    assert_eq!(rt; identity_order(&fields, &Value::Null), Ordering::Greater);
    Ok(())
}

fn row_of(alloc: Global, values: &[Value]) -> Result<Items<Value>, AllocError> {
    let mut row = Items::new(alloc);
    for value in values {
        row.push(copy_value(alloc, value)?)?;
    }
    Ok(row)
}
