//! Each call on its corners. A number that isn't there is NULL.
ghost use Rattle.std.specs.Prelude.{◌≡◌, true};
ghost use Rattle.sql_types.specs.declared.sql_type.SqlType.TheVariants as types;
ghost use Rattle.sql_types.specs.Fits.{fits};

use crate::*;
use sql_types::FaultKind::{Argument, DivisionByZero, Index, OutOfRange, User};
use sql_types::{CallFault, FaultKind, Items, Text, Value, Values, same};
use std::alloc::{AllocError, Global};
use std::test::Fail;

const LEAST: Option<i64> = Some(i64::MIN);

const GREATEST: Option<i64> = Some(i64::MAX);

/// The calls that take two INT64.
#[derive(Clone, Copy, Debug)]
enum OfInts {
    Add,
    Sub,
    Mul,
    Div,
    Mod,
    BitAnd,
    BitXor,
    BitOr,
    Shl,
    Shr,
    SafeAdd,
    SafeSubtract,
    SafeMultiply,
}

const INTS: [(
    OfInts,
    Option<i64>,
    Option<i64>,
    Result<Option<i64>, FaultKind>,
); 64] = [
    (OfInts::Add, Some(2), Some(3), Ok(Some(5))),
    (OfInts::Add, GREATEST, Some(0), Ok(GREATEST)),
    (OfInts::Add, GREATEST, Some(1), Err(OutOfRange)),
    (OfInts::Add, LEAST, Some(-1), Err(OutOfRange)),
    (OfInts::Add, LEAST, GREATEST, Ok(Some(-1))),
    (OfInts::Add, None, Some(1), Ok(None)),
    (OfInts::Sub, Some(2), Some(3), Ok(Some(-1))),
    (OfInts::Sub, LEAST, Some(1), Err(OutOfRange)),
    (OfInts::Sub, Some(0), LEAST, Err(OutOfRange)),
    (OfInts::Sub, Some(-1), LEAST, Ok(GREATEST)),
    (OfInts::Sub, LEAST, None, Ok(None)),
    (OfInts::Mul, Some(-2), Some(3), Ok(Some(-6))),
    (OfInts::Mul, LEAST, Some(1), Ok(LEAST)),
    (OfInts::Mul, LEAST, Some(-1), Err(OutOfRange)),
    (OfInts::Mul, GREATEST, Some(2), Err(OutOfRange)),
    (OfInts::Mul, None, None, Ok(None)),
    (OfInts::Div, Some(7), Some(2), Ok(Some(3))),
    // toward 0
    (OfInts::Div, Some(-7), Some(2), Ok(Some(-3))),
    (OfInts::Div, Some(7), Some(-2), Ok(Some(-3))),
    (OfInts::Div, LEAST, Some(-1), Err(OutOfRange)),
    (OfInts::Div, Some(1), Some(0), Err(DivisionByZero)),
    (OfInts::Div, None, Some(0), Ok(None)),
    (OfInts::Mod, Some(7), Some(2), Ok(Some(1))),
    // with the sign of the first
    (OfInts::Mod, Some(-7), Some(2), Ok(Some(-1))),
    (OfInts::Mod, Some(7), Some(-2), Ok(Some(1))),
    (OfInts::Mod, LEAST, Some(-1), Ok(Some(0))),
    (OfInts::Mod, Some(1), Some(0), Err(DivisionByZero)),
    (OfInts::Mod, Some(1), None, Ok(None)),
    (OfInts::BitAnd, Some(12), Some(10), Ok(Some(8))),
    (OfInts::BitAnd, Some(-1), LEAST, Ok(LEAST)),
    (OfInts::BitAnd, None, Some(0), Ok(None)),
    (OfInts::BitXor, Some(12), Some(10), Ok(Some(6))),
    (OfInts::BitXor, Some(-1), GREATEST, Ok(LEAST)),
    (OfInts::BitXor, Some(0), None, Ok(None)),
    (OfInts::BitOr, Some(12), Some(10), Ok(Some(14))),
    (OfInts::BitOr, LEAST, GREATEST, Ok(Some(-1))),
    (OfInts::BitOr, None, Some(-1), Ok(None)),
    (OfInts::Shl, Some(1), Some(3), Ok(Some(8))),
    (OfInts::Shl, Some(1), Some(63), Ok(LEAST)),
    (OfInts::Shl, Some(1), Some(64), Ok(Some(0))),
    (OfInts::Shl, Some(-1), GREATEST, Ok(Some(0))),
    (OfInts::Shl, Some(-1), Some(1), Ok(Some(-2))),
    (OfInts::Shl, Some(1), Some(-1), Err(Argument)),
    (OfInts::Shl, None, Some(-1), Ok(None)),
    (OfInts::Shr, Some(8), Some(3), Ok(Some(1))),
    // zeros come in
    (OfInts::Shr, Some(-1), Some(1), Ok(GREATEST)),
    (OfInts::Shr, Some(-1), Some(63), Ok(Some(1))),
    (OfInts::Shr, Some(-1), Some(0), Ok(Some(-1))),
    (OfInts::Shr, Some(-1), Some(64), Ok(Some(0))),
    (OfInts::Shr, Some(0), Some(-1), Err(Argument)),
    (OfInts::Shr, Some(0), LEAST, Err(Argument)),
    (OfInts::Shr, Some(1), None, Ok(None)),
    (OfInts::SafeAdd, Some(2), Some(3), Ok(Some(5))),
    (OfInts::SafeAdd, GREATEST, Some(1), Ok(None)),
    (OfInts::SafeAdd, None, Some(1), Ok(None)),
    (OfInts::SafeSubtract, Some(2), Some(3), Ok(Some(-1))),
    (OfInts::SafeSubtract, LEAST, Some(1), Ok(None)),
    (OfInts::SafeSubtract, Some(1), None, Ok(None)),
    (OfInts::SafeMultiply, Some(2), Some(3), Ok(Some(6))),
    (OfInts::SafeMultiply, LEAST, Some(-1), Ok(None)),
    (OfInts::SafeMultiply, GREATEST, GREATEST, Ok(None)),
    (OfInts::SafeMultiply, LEAST, Some(0), Ok(Some(0))),
    (OfInts::SafeMultiply, None, LEAST, Ok(None)),
    (OfInts::Add, Some(i64::MAX - 1), Some(1), Ok(GREATEST)),
];

#[test]
fn two_ints(rt: HostRuntime) {
    for (call, left, right, want) in INTS {
        let got = of_ints(call, int(left), int(right));
        assert!(rt; agree(got, int_answer(want)), "{call:?} {left:?} {right:?}");
    }
}

fn of_ints(call: OfInts, left: Value, right: Value) -> Result<Value, FaultKind>
    requires left { fits types.Int64 left ≡ true }
    requires right { fits types.Int64 right ≡ true }
{
    let values = [left, right];
    match call {
        OfInts::Add => add_int64_int64(&values),
        OfInts::Sub => sub_int64_int64(&values),
        OfInts::Mul => mul_int64_int64(&values),
        OfInts::Div => div_int64_int64(&values),
        OfInts::Mod => mod_int64_int64(&values),
        OfInts::BitAnd => Ok(bitand_int64_int64(&values)),
        OfInts::BitXor => Ok(bitxor_int64_int64(&values)),
        OfInts::BitOr => Ok(bitor_int64_int64(&values)),
        OfInts::Shl => shl_int64_int64(&values),
        OfInts::Shr => shr_int64_int64(&values),
        OfInts::SafeAdd => Ok(safe_add_int64_int64(&values)),
        OfInts::SafeSubtract => Ok(safe_subtract_int64_int64(&values)),
        OfInts::SafeMultiply => Ok(safe_multiply_int64_int64(&values)),
    }
}

fn int_answer(want: Result<Option<i64>, FaultKind>) -> Result<Value, FaultKind> {
    match want {
        Ok(number) => Ok(int(number)),
        Err(fault) => Err(fault),
    }
}

/// The calls that take two UINT64.
#[derive(Clone, Copy, Debug)]
enum OfUints {
    Add,
    Mul,
    Div,
    Mod,
    BitAnd,
    BitXor,
    BitOr,
    SafeAdd,
    SafeMultiply,
}

const UINTS: [(
    OfUints,
    Option<u64>,
    Option<u64>,
    Result<Option<u64>, FaultKind>,
); 27] = [
    (
        OfUints::Add,
        Some(u64::MAX - 1),
        Some(1),
        Ok(Some(u64::MAX)),
    ),
    (OfUints::Add, Some(u64::MAX), Some(1), Err(OutOfRange)),
    (OfUints::Add, None, Some(1), Ok(None)),
    (OfUints::Mul, Some(u64::MAX), Some(1), Ok(Some(u64::MAX))),
    (OfUints::Mul, Some(1 << 32), Some(1 << 32), Err(OutOfRange)),
    (OfUints::Mul, Some(0), None, Ok(None)),
    (
        OfUints::Div,
        Some(u64::MAX),
        Some(2),
        Ok(Some(9_223_372_036_854_775_807)),
    ),
    (OfUints::Div, Some(0), Some(0), Err(DivisionByZero)),
    (OfUints::Div, None, Some(0), Ok(None)),
    (OfUints::Mod, Some(u64::MAX), Some(10), Ok(Some(5))),
    (OfUints::Mod, Some(1), Some(0), Err(DivisionByZero)),
    (OfUints::Mod, Some(1), None, Ok(None)),
    (
        OfUints::BitAnd,
        Some(u64::MAX),
        Some(1 << 63),
        Ok(Some(1 << 63)),
    ),
    (OfUints::BitAnd, Some(12), Some(10), Ok(Some(8))),
    (OfUints::BitAnd, None, Some(0), Ok(None)),
    (OfUints::BitXor, Some(u64::MAX), Some(u64::MAX), Ok(Some(0))),
    (OfUints::BitXor, Some(12), Some(10), Ok(Some(6))),
    (OfUints::BitXor, Some(0), None, Ok(None)),
    (
        OfUints::BitOr,
        Some(1 << 63),
        Some((1 << 63) - 1),
        Ok(Some(u64::MAX)),
    ),
    (OfUints::BitOr, Some(12), Some(10), Ok(Some(14))),
    (OfUints::BitOr, None, Some(u64::MAX), Ok(None)),
    (OfUints::SafeAdd, Some(2), Some(3), Ok(Some(5))),
    (OfUints::SafeAdd, Some(u64::MAX), Some(1), Ok(None)),
    (OfUints::SafeAdd, None, Some(1), Ok(None)),
    (OfUints::SafeMultiply, Some(2), Some(3), Ok(Some(6))),
    (OfUints::SafeMultiply, Some(u64::MAX), Some(2), Ok(None)),
    (OfUints::SafeMultiply, None, Some(2), Ok(None)),
];

#[test]
fn two_uints(rt: HostRuntime) {
    for (call, left, right, want) in UINTS {
        let got = of_uints(call, uint(left), uint(right));
        assert!(rt;
            agree(got, uint_answer(want)),
            "{call:?} {left:?} {right:?}"
        );
    }
}

fn of_uints(call: OfUints, left: Value, right: Value) -> Result<Value, FaultKind>
    requires left { fits types.Uint64 left ≡ true }
    requires right { fits types.Uint64 right ≡ true }
{
    let values = [left, right];
    match call {
        OfUints::Add => add_uint64_uint64(&values),
        OfUints::Mul => mul_uint64_uint64(&values),
        OfUints::Div => div_uint64_uint64(&values),
        OfUints::Mod => mod_uint64_uint64(&values),
        OfUints::BitAnd => Ok(bitand_uint64_uint64(&values)),
        OfUints::BitXor => Ok(bitxor_uint64_uint64(&values)),
        OfUints::BitOr => Ok(bitor_uint64_uint64(&values)),
        OfUints::SafeAdd => Ok(safe_add_uint64_uint64(&values)),
        OfUints::SafeMultiply => Ok(safe_multiply_uint64_uint64(&values)),
    }
}

fn uint_answer(want: Result<Option<u64>, FaultKind>) -> Result<Value, FaultKind> {
    match want {
        Ok(number) => Ok(uint(number)),
        Err(fault) => Err(fault),
    }
}

/// Two UINT64, and their difference, an INT64. SAFE_SUBTRACT has NULL in place of the fault.
const DIFFERENCES: [(Option<u64>, Option<u64>, Result<Option<i64>, FaultKind>); 6] = [
    (Some(u64::MAX), Some(1 << 63), Ok(GREATEST)),
    (Some(u64::MAX), Some((1 << 63) - 1), Err(OutOfRange)),
    (Some(0), Some(1), Ok(Some(-1))),
    (Some(0), Some(1 << 63), Ok(LEAST)),
    (Some(0), Some((1 << 63) + 1), Err(OutOfRange)),
    (None, Some(1), Ok(None)),
];

#[test]
fn differences_of_uints(rt: HostRuntime) {
    for (left, right, want) in DIFFERENCES {
        let got = sub_uint64_uint64(&[uint(left), uint(right)]);
        assert!(rt; agree(got, int_answer(want)), "{left:?} {right:?}");
        let got = safe_subtract_uint64_uint64(&[uint(left), uint(right)]);
        assert!(rt;
            same(&got, &int(want.unwrap_or(None))),
            "{left:?} {right:?}"
        );
    }
}

/// A UINT64, places, and the number so many places to the left and to the right.
const SHIFTS: [(
    Option<u64>,
    Option<i64>,
    Result<(Option<u64>, Option<u64>), FaultKind>,
); 7] = [
    (Some(3), Some(0), Ok((Some(3), Some(3)))),
    (
        Some(u64::MAX),
        Some(1),
        Ok((Some(u64::MAX - 1), Some((1 << 63) - 1))),
    ),
    (Some(3), Some(63), Ok((Some(1 << 63), Some(0)))),
    (Some(u64::MAX), Some(64), Ok((Some(0), Some(0)))),
    (Some(1), GREATEST, Ok((Some(0), Some(0)))),
    (Some(1), Some(-1), Err(Argument)),
    (None, Some(-1), Ok((None, None))),
];

#[test]
fn shifts_of_uints(rt: HostRuntime) {
    for (number, places, want) in SHIFTS {
        let (left, right) = match want {
            Ok((left, right)) => (Ok(left), Ok(right)),
            Err(fault) => (Err(fault), Err(fault)),
        };
        let got = shl_uint64_int64(&[uint(number), int(places)]);
        assert!(rt; agree(got, uint_answer(left)), "{number:?} {places:?}");
        let got = shr_uint64_int64(&[uint(number), int(places)]);
        assert!(rt; agree(got, uint_answer(right)), "{number:?} {places:?}");
    }
}

/// The calls that take one INT64.
#[derive(Clone, Copy, Debug)]
enum OfInt {
    Neg,
    Pos,
    Flip,
    Abs,
    Sign,
}

const INT: [(OfInt, Option<i64>, Result<Option<i64>, FaultKind>); 16] = [
    (OfInt::Neg, Some(5), Ok(Some(-5))),
    (OfInt::Neg, GREATEST, Ok(Some(-9_223_372_036_854_775_807))),
    (OfInt::Neg, LEAST, Err(OutOfRange)),
    (OfInt::Neg, None, Ok(None)),
    (OfInt::Pos, LEAST, Ok(LEAST)),
    (OfInt::Pos, None, Ok(None)),
    (OfInt::Flip, Some(0), Ok(Some(-1))),
    (OfInt::Flip, LEAST, Ok(GREATEST)),
    (OfInt::Flip, None, Ok(None)),
    (OfInt::Abs, Some(-5), Ok(Some(5))),
    (OfInt::Abs, LEAST, Err(OutOfRange)),
    (OfInt::Abs, None, Ok(None)),
    (OfInt::Sign, LEAST, Ok(Some(-1))),
    (OfInt::Sign, Some(0), Ok(Some(0))),
    (OfInt::Sign, GREATEST, Ok(Some(1))),
    (OfInt::Sign, None, Ok(None)),
];

#[test]
fn one_int(rt: HostRuntime) {
    for (call, number, want) in INT {
        assert!(rt;
            agree(of_int(call, int(number)), int_answer(want)),
            "{call:?} {number:?}"
        );
    }
    for (number, flipped) in [
        (Some(0), Some(u64::MAX)),
        (Some(u64::MAX), Some(0)),
        (None, None),
    ] {
        assert!(rt; same(&flip_uint64(&[uint(number)]), &uint(flipped)));
        assert!(rt; same(&pos_uint64(&[uint(number)]), &uint(number)));
    }
}

fn of_int(call: OfInt, number: Value) -> Result<Value, FaultKind>
    requires { fits types.Int64 number ≡ true }
{
    let values = [number];
    match call {
        OfInt::Neg => neg_int64(&values),
        OfInt::Pos => Ok(pos_int64(&values)),
        OfInt::Flip => Ok(flip_int64(&values)),
        OfInt::Abs => abs_int64(&values),
        OfInt::Sign => Ok(sign_int64(&values)),
    }
}

/// The calls on BOOL.
#[derive(Clone, Copy, Debug)]
enum Logic {
    Not,
    And,
    Or,
    IsTrue,
    IsFalse,
}

/// One or two truth values and the answer.
const LOGIC: [(Logic, Option<bool>, Option<bool>, Option<bool>); 25] = [
    (Logic::Not, Some(true), None, Some(false)),
    (Logic::Not, Some(false), None, Some(true)),
    (Logic::Not, None, None, None),
    (Logic::And, Some(true), Some(true), Some(true)),
    (Logic::And, Some(true), Some(false), Some(false)),
    (Logic::And, None, Some(false), Some(false)),
    (Logic::And, Some(false), None, Some(false)),
    (Logic::And, None, Some(true), None),
    (Logic::And, Some(true), None, None),
    (Logic::And, None, None, None),
    (Logic::Or, Some(false), Some(false), Some(false)),
    (Logic::Or, Some(false), Some(true), Some(true)),
    (Logic::Or, None, Some(true), Some(true)),
    (Logic::Or, Some(true), None, Some(true)),
    (Logic::Or, None, Some(false), None),
    (Logic::Or, Some(false), None, None),
    (Logic::Or, None, None, None),
    (Logic::IsTrue, Some(true), None, Some(true)),
    (Logic::IsTrue, Some(false), None, Some(false)),
    (Logic::IsTrue, None, None, Some(false)),
    (Logic::IsFalse, Some(true), None, Some(false)),
    (Logic::IsFalse, Some(false), None, Some(true)),
    (Logic::IsFalse, None, None, Some(false)),
    (Logic::And, Some(false), Some(false), Some(false)),
    (Logic::Or, Some(true), Some(true), Some(true)),
];

#[test]
fn truth_values(rt: HostRuntime) {
    for (call, left, right, want) in LOGIC {
        assert!(rt;
            same(&of_truths(call, truth(left), truth(right)), &truth(want)),
            "{call:?} {left:?} {right:?}"
        );
    }
}

fn of_truths(call: Logic, left: Value, right: Value) -> Value {
    match call {
        Logic::Not => not_bool(&[left]),
        Logic::And => and_bool_bool(&[left, right]),
        Logic::Or => or_bool_bool(&[left, right]),
        Logic::IsTrue => is_true_bool(&[left]),
        Logic::IsFalse => is_false_bool(&[left]),
    }
}

fn truth(truth: Option<bool>) -> Value {
    match truth {
        Some(truth) => Value::Bool(truth),
        None => Value::Null,
    }
}

/// A value as a constant, or no argument.
#[derive(Clone, Copy, Debug)]
enum Given {
    Nothing,
    Null,
    Bool(bool),
    Int(i64),
    Uint(u64),
    Text(&'static str),
    Date(i32),
    /// An ARRAY<INT64>.
    Array(&'static [Option<i64>]),
    /// A STRUCT of two INT64.
    Pair(Option<i64>, Option<i64>),
}

use Given::{Array, Bool, Date, Int, Nothing, Null, Pair, Uint};

/// The calls that take values of any type and make no value that needs memory.
#[derive(Clone, Copy, Debug)]
enum Plain {
    Eq,
    Ne,
    Distinct,
    Lt,
    Le,
    Gt,
    Ge,
    Between,
    IsNull,
    IsError,
    Error,
    ArrayLength,
    ArrayIncludes,
}

/// Equality, three-valued but for IS DISTINCT FROM.
const EQUAL: [(Plain, Given, Given, Given, Result<Given, FaultKind>); 23] = [
    (Plain::Eq, Int(1), Int(1), Nothing, Ok(Bool(true))),
    (Plain::Eq, Uint(1), Uint(u64::MAX), Nothing, Ok(Bool(false))),
    (Plain::Eq, Null, Null, Nothing, Ok(Null)),
    (Plain::Eq, Int(1), Null, Nothing, Ok(Null)),
    (
        Plain::Eq,
        Given::Text("a"),
        Given::Text("A"),
        Nothing,
        Ok(Bool(false)),
    ),
    (Plain::Eq, Date(0), Date(0), Nothing, Ok(Bool(true))),
    (Plain::Eq, Bool(false), Bool(false), Nothing, Ok(Bool(true))),
    // a STRUCT by AND over its fields
    (
        Plain::Eq,
        Pair(Some(1), None),
        Pair(Some(2), Some(2)),
        Nothing,
        Ok(Bool(false)),
    ),
    (
        Plain::Eq,
        Pair(Some(1), None),
        Pair(Some(1), Some(2)),
        Nothing,
        Ok(Null),
    ),
    (
        Plain::Eq,
        Pair(Some(1), Some(2)),
        Pair(Some(1), Some(2)),
        Nothing,
        Ok(Bool(true)),
    ),
    (Plain::Ne, Int(1), Int(1), Nothing, Ok(Bool(false))),
    (Plain::Ne, Int(1), Int(2), Nothing, Ok(Bool(true))),
    (Plain::Ne, Int(1), Null, Nothing, Ok(Null)),
    (
        Plain::Ne,
        Pair(Some(1), None),
        Pair(Some(2), None),
        Nothing,
        Ok(Bool(true)),
    ),
    (Plain::Distinct, Null, Null, Nothing, Ok(Bool(false))),
    (Plain::Distinct, Int(1), Null, Nothing, Ok(Bool(true))),
    (Plain::Distinct, Int(1), Int(1), Nothing, Ok(Bool(false))),
    (
        Plain::Distinct,
        Pair(Some(1), None),
        Pair(Some(1), None),
        Nothing,
        Ok(Bool(false)),
    ),
    (
        Plain::Distinct,
        Pair(Some(1), None),
        Pair(Some(1), Some(1)),
        Nothing,
        Ok(Bool(true)),
    ),
    (
        Plain::Eq,
        Int(i64::MIN),
        Int(i64::MIN),
        Nothing,
        Ok(Bool(true)),
    ),
    (Plain::Ne, Null, Null, Nothing, Ok(Null)),
    (
        Plain::Ne,
        Pair(Some(1), None),
        Pair(Some(1), None),
        Nothing,
        Ok(Null),
    ),
    (Plain::Distinct, Null, Int(1), Nothing, Ok(Bool(true))),
];

#[test]
fn equality(rt: HostRuntime) -> Result<(), Fail> {
    for (call, first, second, third, want) in EQUAL {
        assert!(rt;
            answers_as(rt.alloc(), call, first, second, third, want)?,
            "{call:?} {first:?} {second:?}"
        );
    }
    Ok(())
}

/// Order, and BETWEEN.
const ORDERED: [(Plain, Given, Given, Given, Result<Given, FaultKind>); 34] = [
    (Plain::Lt, Int(-1), Int(0), Nothing, Ok(Bool(true))),
    (Plain::Lt, Int(0), Int(0), Nothing, Ok(Bool(false))),
    (Plain::Lt, Uint(1), Uint(u64::MAX), Nothing, Ok(Bool(true))),
    (Plain::Lt, Bool(false), Bool(true), Nothing, Ok(Bool(true))),
    (Plain::Lt, Date(-1), Date(0), Nothing, Ok(Bool(true))),
    // by bytes
    (
        Plain::Lt,
        Given::Text("\u{ffff}"),
        Given::Text("\u{1f600}"),
        Nothing,
        Ok(Bool(true)),
    ),
    (
        Plain::Lt,
        Given::Text(""),
        Given::Text("a"),
        Nothing,
        Ok(Bool(true)),
    ),
    (Plain::Lt, Null, Int(0), Nothing, Ok(Null)),
    (Plain::Le, Int(0), Int(0), Nothing, Ok(Bool(true))),
    (Plain::Le, Int(1), Int(0), Nothing, Ok(Bool(false))),
    (Plain::Le, Int(0), Null, Nothing, Ok(Null)),
    (Plain::Gt, Int(1), Int(0), Nothing, Ok(Bool(true))),
    (Plain::Gt, Int(0), Int(0), Nothing, Ok(Bool(false))),
    (Plain::Gt, Null, Null, Nothing, Ok(Null)),
    (Plain::Ge, Int(0), Int(0), Nothing, Ok(Bool(true))),
    (
        Plain::Ge,
        Given::Text("a"),
        Given::Text("b"),
        Nothing,
        Ok(Bool(false)),
    ),
    (Plain::Ge, Int(0), Null, Nothing, Ok(Null)),
    (Plain::Between, Int(5), Int(5), Int(5), Ok(Bool(true))),
    (Plain::Between, Int(5), Int(1), Int(4), Ok(Bool(false))),
    (Plain::Between, Int(5), Int(6), Int(9), Ok(Bool(false))),
    // a NULL bound
    (Plain::Between, Int(5), Null, Int(3), Ok(Bool(false))),
    (Plain::Between, Int(5), Int(9), Null, Ok(Bool(false))),
    (Plain::Between, Int(5), Null, Int(9), Ok(Null)),
    (Plain::Between, Null, Int(1), Int(9), Ok(Null)),
    (
        Plain::Lt,
        Int(i64::MIN),
        Int(i64::MAX),
        Nothing,
        Ok(Bool(true)),
    ),
    (
        Plain::Le,
        Given::Text("ab"),
        Given::Text("b"),
        Nothing,
        Ok(Bool(true)),
    ),
    (
        Plain::Gt,
        Given::Text("b"),
        Given::Text("ab"),
        Nothing,
        Ok(Bool(true)),
    ),
    (Plain::Ge, Bool(true), Bool(false), Nothing, Ok(Bool(true))),
    (
        Plain::Gt,
        Uint(u64::MAX),
        Uint(1 << 63),
        Nothing,
        Ok(Bool(true)),
    ),
    (Plain::Lt, Null, Null, Nothing, Ok(Null)),
    (Plain::Le, Null, Int(0), Nothing, Ok(Null)),
    (Plain::Ge, Null, Int(0), Nothing, Ok(Null)),
    (Plain::Gt, Int(0), Null, Nothing, Ok(Null)),
    (
        Plain::Between,
        Given::Text("b"),
        Given::Text("a"),
        Given::Text("c"),
        Ok(Bool(true)),
    ),
];

#[test]
fn orders(rt: HostRuntime) -> Result<(), Fail> {
    for (call, first, second, third, want) in ORDERED {
        assert!(rt;
            answers_as(rt.alloc(), call, first, second, third, want)?,
            "{call:?} {first:?} {second:?}"
        );
    }
    Ok(())
}

/// Tests of one value, lengths, and ERROR.
const TESTED: [(Plain, Given, Given, Given, Result<Given, FaultKind>); 16] = [
    (Plain::IsNull, Null, Nothing, Nothing, Ok(Bool(true))),
    (Plain::IsNull, Int(0), Nothing, Nothing, Ok(Bool(false))),
    (Plain::IsNull, Array(&[]), Nothing, Nothing, Ok(Bool(false))),
    (
        Plain::IsNull,
        Pair(None, None),
        Nothing,
        Nothing,
        Ok(Bool(false)),
    ),
    (Plain::IsError, Int(1), Nothing, Nothing, Ok(Bool(false))),
    (Plain::IsError, Null, Nothing, Nothing, Ok(Bool(false))),
    (Plain::Error, Given::Text("x"), Nothing, Nothing, Err(User)),
    (Plain::Error, Null, Nothing, Nothing, Err(User)),
    (Plain::ArrayLength, Array(&[]), Nothing, Nothing, Ok(Int(0))),
    (
        Plain::ArrayLength,
        Array(&[Some(1), None]),
        Nothing,
        Nothing,
        Ok(Int(2)),
    ),
    (Plain::ArrayLength, Null, Nothing, Nothing, Ok(Null)),
    (
        Plain::ArrayIncludes,
        Array(&[Some(1), None, Some(2)]),
        Int(2),
        Nothing,
        Ok(Bool(true)),
    ),
    // FALSE, not NULL
    (
        Plain::ArrayIncludes,
        Array(&[Some(1), None]),
        Int(2),
        Nothing,
        Ok(Bool(false)),
    ),
    (
        Plain::ArrayIncludes,
        Array(&[]),
        Int(2),
        Nothing,
        Ok(Bool(false)),
    ),
    (
        Plain::ArrayIncludes,
        Array(&[None]),
        Null,
        Nothing,
        Ok(Null),
    ),
    (Plain::ArrayIncludes, Null, Int(2), Nothing, Ok(Null)),
];

#[test]
fn tested(rt: HostRuntime) -> Result<(), Fail> {
    for (call, first, second, third, want) in TESTED {
        assert!(rt;
            answers_as(rt.alloc(), call, first, second, third, want)?,
            "{call:?} {first:?} {second:?}"
        );
    }
    Ok(())
}

fn answers_as(
    alloc: Global,
    call: Plain,
    first: Given,
    second: Given,
    third: Given,
    want: Result<Given, FaultKind>,
) -> Result<bool, AllocError> {
    let values = arguments(alloc, first, second, third)?;
    let want = answer(alloc, want)?;
    Ok(agree(answer_of_plain(call, values.as_slice()), want))
}

fn answer_of_plain(call: Plain, values: &[Value]) -> Result<Value, FaultKind> {
    match call {
        Plain::Eq => Ok(eq_any_any(values)),
        Plain::Ne => Ok(ne_any_any(values)),
        Plain::Distinct => Ok(distinct_any_any(values)),
        Plain::Lt => Ok(lt_any_any(values)),
        Plain::Le => Ok(le_any_any(values)),
        Plain::Gt => Ok(gt_any_any(values)),
        Plain::Ge => Ok(ge_any_any(values)),
        Plain::Between => Ok(between_any_any_any(values)),
        Plain::IsNull => Ok(is_null_any(values)),
        Plain::IsError => Ok(iserror_any(values)),
        Plain::Error => error_string(values),
        Plain::ArrayLength => array_length_array(values),
        Plain::ArrayIncludes => Ok(array_includes_array_any(values)),
    }
}

/// The calls that take values of any type and make a value that may need memory.
#[derive(Clone, Copy, Debug)]
enum Made {
    If,
    IfNull,
    Coalesce,
    NullIf,
    IfError,
    NullIfError,
    Greatest,
    Least,
    ArrayFirst,
    ArrayLast,
    ArrayReverse,
    ArrayConcat,
    Join,
}

const MADE: [(Made, Given, Given, Given, Result<Given, FaultKind>); 46] = [
    (Made::If, Bool(true), Int(1), Int(2), Ok(Int(1))),
    (Made::If, Bool(false), Int(1), Int(2), Ok(Int(2))),
    (Made::If, Null, Int(1), Int(2), Ok(Int(2))),
    (Made::If, Bool(true), Null, Int(2), Ok(Null)),
    (Made::IfNull, Int(1), Int(2), Nothing, Ok(Int(1))),
    (Made::IfNull, Null, Int(2), Nothing, Ok(Int(2))),
    (Made::IfNull, Null, Null, Nothing, Ok(Null)),
    (
        Made::Coalesce,
        Null,
        Null,
        Given::Text("c"),
        Ok(Given::Text("c")),
    ),
    (
        Made::Coalesce,
        Given::Text("a"),
        Null,
        Nothing,
        Ok(Given::Text("a")),
    ),
    (Made::Coalesce, Null, Nothing, Nothing, Ok(Null)),
    (Made::NullIf, Int(1), Int(1), Nothing, Ok(Null)),
    (Made::NullIf, Int(1), Int(2), Nothing, Ok(Int(1))),
    (Made::NullIf, Int(1), Null, Nothing, Ok(Int(1))),
    (Made::NullIf, Null, Int(1), Nothing, Ok(Null)),
    (
        Made::NullIf,
        Pair(Some(1), None),
        Pair(Some(1), None),
        Nothing,
        Ok(Pair(Some(1), None)),
    ),
    (Made::IfError, Int(1), Int(2), Nothing, Ok(Int(1))),
    (Made::IfError, Null, Int(2), Nothing, Ok(Null)),
    (Made::NullIfError, Int(1), Nothing, Nothing, Ok(Int(1))),
    (Made::NullIfError, Null, Nothing, Nothing, Ok(Null)),
    (Made::Greatest, Int(2), Int(3), Int(1), Ok(Int(3))),
    (Made::Greatest, Int(2), Null, Int(1), Ok(Null)),
    (
        Made::Greatest,
        Int(i64::MIN),
        Nothing,
        Nothing,
        Ok(Int(i64::MIN)),
    ),
    (
        Made::Greatest,
        Given::Text("a"),
        Given::Text("b"),
        Nothing,
        Ok(Given::Text("b")),
    ),
    (
        Made::Greatest,
        Uint(u64::MAX),
        Uint(0),
        Nothing,
        Ok(Uint(u64::MAX)),
    ),
    (Made::Least, Int(2), Int(3), Int(1), Ok(Int(1))),
    (Made::Least, Int(2), Int(3), Null, Ok(Null)),
    (Made::Least, Date(5), Date(-5), Nothing, Ok(Date(-5))),
    (
        Made::Least,
        Bool(true),
        Bool(false),
        Nothing,
        Ok(Bool(false)),
    ),
    (
        Made::Least,
        Given::Text("b"),
        Nothing,
        Nothing,
        Ok(Given::Text("b")),
    ),
    (
        Made::ArrayFirst,
        Array(&[Some(1), Some(2)]),
        Nothing,
        Nothing,
        Ok(Int(1)),
    ),
    (
        Made::ArrayFirst,
        Array(&[None, Some(2)]),
        Nothing,
        Nothing,
        Ok(Null),
    ),
    (Made::ArrayFirst, Array(&[]), Nothing, Nothing, Err(Index)),
    (Made::ArrayFirst, Null, Nothing, Nothing, Ok(Null)),
    (
        Made::ArrayLast,
        Array(&[Some(1), Some(2)]),
        Nothing,
        Nothing,
        Ok(Int(2)),
    ),
    (Made::ArrayLast, Array(&[]), Nothing, Nothing, Err(Index)),
    (Made::ArrayLast, Null, Nothing, Nothing, Ok(Null)),
    (
        Made::ArrayReverse,
        Array(&[Some(1), None, Some(3)]),
        Nothing,
        Nothing,
        Ok(Array(&[Some(3), None, Some(1)])),
    ),
    (
        Made::ArrayReverse,
        Array(&[]),
        Nothing,
        Nothing,
        Ok(Array(&[])),
    ),
    (Made::ArrayReverse, Null, Nothing, Nothing, Ok(Null)),
    (
        Made::ArrayConcat,
        Array(&[Some(1)]),
        Array(&[]),
        Array(&[None, Some(2)]),
        Ok(Array(&[Some(1), None, Some(2)])),
    ),
    (
        Made::ArrayConcat,
        Array(&[Some(1)]),
        Nothing,
        Nothing,
        Ok(Array(&[Some(1)])),
    ),
    (
        Made::ArrayConcat,
        Array(&[Some(1)]),
        Null,
        Nothing,
        Ok(Null),
    ),
    (
        Made::Join,
        Array(&[Some(1)]),
        Array(&[Some(2), Some(3)]),
        Nothing,
        Ok(Array(&[Some(1), Some(2), Some(3)])),
    ),
    (Made::Join, Array(&[]), Array(&[]), Nothing, Ok(Array(&[]))),
    (Made::Join, Null, Array(&[]), Nothing, Ok(Null)),
    (Made::Join, Array(&[]), Null, Nothing, Ok(Null)),
];

#[test]
fn made_calls(rt: HostRuntime) -> Result<(), Fail> {
    for (call, first, second, third, want) in MADE {
        let values = arguments(rt.alloc(), first, second, third)?;
        let want = answer(rt.alloc(), want)?;
        let got = found(answer_of_made(rt.alloc(), call, values.as_slice()))?;
        assert!(rt; agree(got, want), "{call:?} {first:?} {second:?}");
    }
    Ok(())
}

fn answer_of_made(alloc: Global, call: Made, values: &[Value]) -> Result<Value, CallFault> {
    match call {
        Made::If => if_bool_any_any(alloc, values),
        Made::IfNull => ifnull_any_any(alloc, values),
        Made::Coalesce => coalesce_any(alloc, values),
        Made::NullIf => nullif_any_any(alloc, values),
        Made::IfError => iferror_any_any(alloc, values),
        Made::NullIfError => nulliferror_any(alloc, values),
        Made::Greatest => greatest_any(alloc, values),
        Made::Least => least_any(alloc, values),
        Made::ArrayFirst => array_first_array(alloc, values),
        Made::ArrayLast => array_last_array(alloc, values),
        Made::ArrayReverse => array_reverse_array(alloc, values),
        Made::ArrayConcat => array_concat_array(alloc, values),
        Made::Join => join_array_array(alloc, values),
    }
}

/// The first and the last number, the step, and the array. A step of 1 is tried as one that isn't given, too.
const GENERATED: [(
    Option<i64>,
    Option<i64>,
    Option<i64>,
    Result<Given, FaultKind>,
); 14] = [
    (
        Some(1),
        Some(3),
        Some(1),
        Ok(Array(&[Some(1), Some(2), Some(3)])),
    ),
    (Some(2), Some(2), Some(1), Ok(Array(&[Some(2)]))),
    (Some(3), Some(1), Some(1), Ok(Array(&[]))),
    (
        Some(1),
        Some(6),
        Some(2),
        Ok(Array(&[Some(1), Some(3), Some(5)])),
    ),
    (
        Some(5),
        Some(1),
        Some(-2),
        Ok(Array(&[Some(5), Some(3), Some(1)])),
    ),
    (Some(1), Some(5), Some(-2), Ok(Array(&[]))),
    (
        LEAST,
        GREATEST,
        GREATEST,
        Ok(Array(&[LEAST, Some(-1), Some(i64::MAX - 1)])),
    ),
    (GREATEST, LEAST, LEAST, Ok(Array(&[GREATEST, Some(-1)]))),
    (Some(3), Some(1), Some(0), Err(Argument)),
    (Some(0), Some(1_048_576), Some(1), Err(OutOfRange)),
    (LEAST, GREATEST, Some(1), Err(OutOfRange)),
    (None, Some(1), Some(1), Ok(Null)),
    (Some(1), None, Some(0), Ok(Null)),
    (Some(1), Some(2), None, Ok(Null)),
];

#[test]
fn generated_arrays(rt: HostRuntime) -> Result<(), Fail> {
    for (first, last, step, want) in GENERATED {
        let want = answer(rt.alloc(), want)?;
        let got = found(in_given_steps(rt.alloc(), int(first), int(last), int(step)))?;
        assert!(rt; agree(got, want), "{first:?} {last:?} {step:?}");
    }
    Ok(())
}

fn in_given_steps(alloc: Global, first: Value, last: Value, step: Value) -> Result<Value, CallFault>
    requires first { fits types.Int64 first ≡ true }
    requires last { fits types.Int64 last ≡ true }
    requires step { fits types.Int64 step ≡ true }
{
    match step {
        Value::Int(1) => generate_array_int64_int64_int64(alloc, &[first, last]),
        step => generate_array_int64_int64_int64(alloc, &[first, last, step]),
    }
}

/// The most elements that there may be.
#[test]
fn longest_array(rt: HostRuntime) -> Result<(), Fail> {
    let values = [int(Some(0)), int(Some(1_048_575))];
    let array = found(generate_array_int64_int64_int64(rt.alloc(), &values))?;
    match array {
        Ok(array) => assert!(rt; agree(array_length_array(&[array]), Ok(Value::Int(1_048_576)))),
        Err(_) => assert!(rt; false),
    }
    Ok(())
}

/// An INT64.
fn int(number: Option<i64>) -> Value
    ensures { fits types.Int64 result ≡ true }
{
    match number {
        Some(number) => some_int(number),
        None => null_value(),
    }
}

#[tactic(auto, using(crate::proofs::FitLaws::int_fits))]
fn some_int(number: i64) -> Value
    ensures { fits types.Int64 result ≡ true }
{
    Value::Int(number)
}

/// A UINT64.
fn uint(number: Option<u64>) -> Value
    ensures { fits types.Uint64 result ≡ true }
{
    match number {
        Some(number) => some_uint(number),
        None => null_value(),
    }
}

#[tactic(auto, using(crate::proofs::FitLaws::uint_fits))]
fn some_uint(number: u64) -> Value
    ensures { fits types.Uint64 result ≡ true }
{
    Value::Uint(number)
}

/// NULL fits both types.
#[tactic(auto, using(crate::proofs::FitLaws::null_fits))]
fn null_value() -> Value
    ensures int { fits types.Int64 result ≡ true }
    ensures uint { fits types.Uint64 result ≡ true }
{
    Value::Null
}

fn arguments(
    alloc: Global,
    first: Given,
    second: Given,
    third: Given,
) -> Result<Values, AllocError> {
    let mut values = Items::new(alloc);
    for given in [first, second, third] {
        if let Some(value) = value_of(alloc, given)? {
            values.push(value)?;
        }
    }
    Ok(values)
}

fn answer(
    alloc: Global,
    want: Result<Given, FaultKind>,
) -> Result<Result<Value, FaultKind>, AllocError> {
    match want {
        Ok(given) => Ok(Ok(value_of(alloc, given)?.unwrap_or(Value::Null))),
        Err(fault) => Ok(Err(fault)),
    }
}

/// The value, and none for no argument.
fn value_of(alloc: Global, given: Given) -> Result<Option<Value>, AllocError> {
    match given {
        Nothing => Ok(None),
        Null => Ok(Some(Value::Null)),
        Bool(truth) => Ok(Some(Value::Bool(truth))),
        Int(number) => Ok(Some(Value::Int(number))),
        Uint(number) => Ok(Some(Value::Uint(number))),
        Given::Text(content) => Ok(Some(Value::Text(Text::copy_of(alloc, content)?))),
        Date(day) => Ok(Some(Value::Date(day))),
        Array(numbers) => Ok(Some(Value::Array(ints(alloc, numbers)?))),
        Pair(first, second) => Ok(Some(Value::Struct(ints(alloc, &[first, second])?))),
    }
}

fn ints(alloc: Global, numbers: &[Option<i64>]) -> Result<Values, AllocError> {
    let mut values = Items::new(alloc);
    for number in numbers {
        values.push(int(*number))?;
    }
    Ok(values)
}

/// The answer of a call that found memory.
fn found(answer: Result<Value, CallFault>) -> Result<Result<Value, FaultKind>, AllocError> {
    match answer {
        Ok(value) => Ok(Ok(value)),
        Err(CallFault::Fault(fault)) => Ok(Err(fault)),
        Err(CallFault::OutOfMemory) => Err(AllocError),
    }
}

/// Whether the two are the same value, or the same fault.
fn agree(got: Result<Value, FaultKind>, want: Result<Value, FaultKind>) -> bool {
    match (got, want) {
        (Ok(value), Ok(wanted)) => same(&value, &wanted),
        (Err(fault), Err(wanted)) => fault == wanted,
        _ => false,
    }
}
