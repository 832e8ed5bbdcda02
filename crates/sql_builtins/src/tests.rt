//! Each row chosen once, choices by their cost, and values of calls.
ghost use Rattle.std.specs.Prelude.{◌≡◌};
ghost use Rattle.sql_types.specs.Takes.{fits_types};

use crate::{SigId, apply, choose};
use sql_coerce::{Arg, Kind, castable, convert};
use sql_types::{
    Boxed, CallFault, FaultKind, Items, SqlType, Text, Value, Values, fits, read_date, same,
};
use std::alloc::{AllocError, Global};
use std::test::Fail;

/// An argument of the tables.
#[derive(Clone, Copy)]
enum Given {
    /// An untyped NULL.
    Null,
    /// An untyped `[]`.
    Empty,
    // A literal.
    Truth(bool),
    Int(i64),
    Uint(u64),
    String(&'static str),
    Binary(&'static [u8]),
    Day(&'static str),
    // A column of this type.
    Bool,
    Int32,
    Int64,
    Uint32,
    Uint64,
    Text,
    Bytes,
    Date,
    /// ARRAY<STRING>
    Texts,
}

/// A name, the arguments, and the row that is chosen for them. The tables have each row once.
type Chosen = (&'static str, &'static [Given], SigId);

/// Names, arguments, and the row that is chosen for them: the operators on numbers, texts and arrays.
const OPERATORS: [Chosen; 24] = [
    ("+", &[Given::Int64, Given::Int64], SigId::AddInt64),
    ("+", &[Given::Uint64, Given::Uint64], SigId::AddUint64),
    ("*", &[Given::Int64, Given::Int64], SigId::MultiplyInt64),
    ("*", &[Given::Uint64, Given::Uint64], SigId::MultiplyUint64),
    ("-", &[Given::Int64, Given::Int64], SigId::SubtractInt64),
    ("-", &[Given::Uint64, Given::Uint64], SigId::SubtractUint64),
    ("-", &[Given::Int64], SigId::Negate),
    ("+", &[Given::Int64], SigId::PlusInt64),
    ("+", &[Given::Uint64], SigId::PlusUint64),
    ("~", &[Given::Int64], SigId::FlipInt64),
    ("~", &[Given::Uint64], SigId::FlipUint64),
    ("&", &[Given::Int64, Given::Int64], SigId::BitAndInt64),
    ("&", &[Given::Uint64, Given::Uint64], SigId::BitAndUint64),
    ("^", &[Given::Int64, Given::Int64], SigId::BitXorInt64),
    ("^", &[Given::Uint64, Given::Uint64], SigId::BitXorUint64),
    ("|", &[Given::Int64, Given::Int64], SigId::BitOrInt64),
    ("|", &[Given::Uint64, Given::Uint64], SigId::BitOrUint64),
    ("<<", &[Given::Int64, Given::Int64], SigId::ShiftLeftInt64),
    ("<<", &[Given::Uint64, Given::Int64], SigId::ShiftLeftUint64),
    (">>", &[Given::Int64, Given::Int64], SigId::ShiftRightInt64),
    (
        ">>",
        &[Given::Uint64, Given::Int64],
        SigId::ShiftRightUint64,
    ),
    ("||", &[Given::Text, Given::Text], SigId::JoinString),
    ("||", &[Given::Bytes, Given::Bytes], SigId::JoinBytes),
    ("||", &[Given::Texts, Given::Empty], SigId::JoinArray),
];

/// Names, arguments, and the row that is chosen for them: comparisons, logic and the functions that choose.
const COMPARISONS: [Chosen; 24] = [
    ("=", &[Given::Text, Given::Text], SigId::Equal),
    ("!=", &[Given::Text, Given::Text], SigId::NotEqual),
    ("<", &[Given::Date, Given::Date], SigId::Less),
    ("<=", &[Given::Date, Given::Date], SigId::LessEqual),
    (">", &[Given::Date, Given::Date], SigId::Greater),
    (">=", &[Given::Date, Given::Date], SigId::GreaterEqual),
    ("LIKE", &[Given::Text, Given::Text], SigId::LikeString),
    ("LIKE", &[Given::Bytes, Given::Bytes], SigId::LikeBytes),
    ("NOT", &[Given::Bool], SigId::Not),
    ("AND", &[Given::Bool, Given::Bool], SigId::And),
    ("OR", &[Given::Bool, Given::Bool], SigId::Or),
    (
        "BETWEEN",
        &[Given::Int64, Given::Int64, Given::Null],
        SigId::Between,
    ),
    ("IS NULL", &[Given::Texts], SigId::IsNull),
    ("IS TRUE", &[Given::Bool], SigId::IsTrue),
    ("IS FALSE", &[Given::Bool], SigId::IsFalse),
    (
        "IS DISTINCT FROM",
        &[Given::Bytes, Given::Bytes],
        SigId::IsDistinct,
    ),
    ("IF", &[Given::Bool, Given::Text, Given::Text], SigId::If),
    ("IFNULL", &[Given::Texts, Given::Null], SigId::IfNull),
    (
        "COALESCE",
        &[Given::Null, Given::Null, Given::Date],
        SigId::Coalesce,
    ),
    ("NULLIF", &[Given::Text, Given::Text], SigId::NullIf),
    ("ERROR", &[Given::Text], SigId::Error),
    ("IFERROR", &[Given::Text, Given::Text], SigId::IfError),
    ("NULLIFERROR", &[Given::Texts], SigId::NullIfError),
    ("ISERROR", &[Given::Texts], SigId::IsError),
];

/// Names, arguments, and the row that is chosen for them: the functions on numbers.
const NUMBERS: [Chosen; 14] = [
    ("ABS", &[Given::Int64], SigId::Abs),
    ("SIGN", &[Given::Int64], SigId::Sign),
    ("DIV", &[Given::Int64, Given::Int64], SigId::DivInt64),
    ("DIV", &[Given::Uint64, Given::Uint64], SigId::DivUint64),
    ("MOD", &[Given::Int64, Given::Int64], SigId::ModInt64),
    ("MOD", &[Given::Uint64, Given::Uint64], SigId::ModUint64),
    (
        "GREATEST",
        &[Given::Text, Given::Text, Given::Text],
        SigId::Greatest,
    ),
    ("LEAST", &[Given::Date], SigId::Least),
    (
        "SAFE_ADD",
        &[Given::Int64, Given::Int64],
        SigId::SafeAddInt64,
    ),
    (
        "SAFE_ADD",
        &[Given::Uint64, Given::Uint64],
        SigId::SafeAddUint64,
    ),
    (
        "SAFE_SUBTRACT",
        &[Given::Int64, Given::Int64],
        SigId::SafeSubtractInt64,
    ),
    (
        "SAFE_SUBTRACT",
        &[Given::Uint64, Given::Uint64],
        SigId::SafeSubtractUint64,
    ),
    (
        "SAFE_MULTIPLY",
        &[Given::Int64, Given::Int64],
        SigId::SafeMultiplyInt64,
    ),
    (
        "SAFE_MULTIPLY",
        &[Given::Uint64, Given::Uint64],
        SigId::SafeMultiplyUint64,
    ),
];

/// Names, arguments, and the row that is chosen for them: the functions on texts.
const TEXTS: [Chosen; 27] = [
    ("LENGTH", &[Given::Text], SigId::LengthString),
    ("LENGTH", &[Given::Bytes], SigId::LengthBytes),
    ("BYTE_LENGTH", &[Given::Text], SigId::ByteLengthString),
    ("BYTE_LENGTH", &[Given::Bytes], SigId::ByteLengthBytes),
    ("CHAR_LENGTH", &[Given::Text], SigId::CharLength),
    (
        "CONCAT",
        &[Given::Text, Given::Text, Given::Text],
        SigId::ConcatString,
    ),
    ("CONCAT", &[Given::Bytes], SigId::ConcatBytes),
    ("SUBSTR", &[Given::Text, Given::Int64], SigId::SubstrString),
    (
        "SUBSTR",
        &[Given::Bytes, Given::Int64, Given::Int64],
        SigId::SubstrBytes,
    ),
    (
        "STARTS_WITH",
        &[Given::Text, Given::Text],
        SigId::StartsWithString,
    ),
    (
        "STARTS_WITH",
        &[Given::Bytes, Given::Bytes],
        SigId::StartsWithBytes,
    ),
    (
        "ENDS_WITH",
        &[Given::Text, Given::Text],
        SigId::EndsWithString,
    ),
    (
        "ENDS_WITH",
        &[Given::Bytes, Given::Bytes],
        SigId::EndsWithBytes,
    ),
    ("STRPOS", &[Given::Text, Given::Text], SigId::StrposString),
    ("STRPOS", &[Given::Bytes, Given::Bytes], SigId::StrposBytes),
    (
        "REPLACE",
        &[Given::Text, Given::Text, Given::Text],
        SigId::ReplaceString,
    ),
    (
        "REPLACE",
        &[Given::Bytes, Given::Bytes, Given::Bytes],
        SigId::ReplaceBytes,
    ),
    ("REPEAT", &[Given::Text, Given::Int64], SigId::RepeatString),
    ("REPEAT", &[Given::Bytes, Given::Int64], SigId::RepeatBytes),
    ("REVERSE", &[Given::Text], SigId::ReverseString),
    ("REVERSE", &[Given::Bytes], SigId::ReverseBytes),
    ("TRIM", &[Given::Text], SigId::Trim),
    ("LTRIM", &[Given::Text, Given::Text], SigId::LeftTrim),
    ("RTRIM", &[Given::Text], SigId::RightTrim),
    ("SPLIT", &[Given::Text, Given::Text], SigId::Split),
    ("TO_HEX", &[Given::Bytes], SigId::ToHex),
    ("FROM_HEX", &[Given::Text], SigId::FromHex),
];

/// Names, arguments, and the row that is chosen for them: the functions on arrays and dates.
const ARRAYS_AND_DATES: [Chosen; 16] = [
    ("ARRAY_LENGTH", &[Given::Null], SigId::ArrayLength),
    ("ARRAY_REVERSE", &[Given::Texts], SigId::ArrayReverse),
    (
        "ARRAY_CONCAT",
        &[Given::Texts, Given::Empty, Given::Texts],
        SigId::ArrayConcat,
    ),
    ("ARRAY_FIRST", &[Given::Texts], SigId::ArrayFirst),
    ("ARRAY_LAST", &[Given::Empty], SigId::ArrayLast),
    (
        "ARRAY_TO_STRING",
        &[Given::Texts, Given::Text],
        SigId::ArrayToString,
    ),
    (
        "ARRAY_INCLUDES",
        &[Given::Empty, Given::Text],
        SigId::ArrayIncludes,
    ),
    (
        "GENERATE_ARRAY",
        &[Given::Int64, Given::Int64],
        SigId::GenerateArray,
    ),
    (
        "DATE",
        &[Given::Int64, Given::Int64, Given::Int64],
        SigId::Date,
    ),
    (
        "DATE_ADD",
        &[Given::Date, Given::Int64, Given::Text],
        SigId::DateAdd,
    ),
    (
        "DATE_SUB",
        &[Given::Date, Given::Int64, Given::Text],
        SigId::DateSub,
    ),
    (
        "DATE_DIFF",
        &[Given::Date, Given::Date, Given::Text],
        SigId::DateDiff,
    ),
    ("DATE_TRUNC", &[Given::Date, Given::Text], SigId::DateTrunc),
    ("EXTRACT", &[Given::Text, Given::Date], SigId::Extract),
    ("UNIX_DATE", &[Given::Date], SigId::UnixDate),
    (
        "DATE_FROM_UNIX_DATE",
        &[Given::Int64],
        SigId::DateFromUnixDate,
    ),
];

/// Names, arguments, and the row that is chosen for them: the aggregates. COUNT(*) has no argument.
const AGGREGATES: [Chosen; 12] = [
    ("COUNT", &[], SigId::CountRows),
    ("COUNT", &[Given::Texts], SigId::Count),
    ("COUNTIF", &[Given::Bool], SigId::CountIf),
    ("SUM", &[Given::Int64], SigId::SumInt64),
    ("SUM", &[Given::Uint64], SigId::SumUint64),
    ("MIN", &[Given::Date], SigId::Min),
    ("MAX", &[Given::Bool], SigId::Max),
    ("LOGICAL_AND", &[Given::Bool], SigId::LogicalAnd),
    ("LOGICAL_OR", &[Given::Bool], SigId::LogicalOr),
    ("STRING_AGG", &[Given::Text], SigId::StringAgg),
    ("ARRAY_AGG", &[Given::Bytes], SigId::ArrayAgg),
    ("ANY_VALUE", &[Given::Texts], SigId::AnyValue),
];

/// A name, the arguments, and the row that is chosen by its cost, where one is.
const CHOICES: [(&str, &[Given], Option<SigId>); 20] = [
    // ARRAY_AGG takes no array, and MIN nothing without an order
    ("ARRAY_AGG", &[Given::Texts], None),
    ("MIN", &[Given::Texts], None),
    // a literal coerces
    ("+", &[Given::Uint64, Given::Int(1)], Some(SigId::AddUint64)),
    ("+", &[Given::Int(1), Given::Int(1)], Some(SigId::AddInt64)),
    ("+", &[Given::Uint64, Given::Int(-1)], None),
    ("+", &[Given::Uint64, Given::Int64], None),
    // two rows that cost the same
    ("+", &[Given::Uint32, Given::Uint32], Some(SigId::AddInt64)),
    // the coercions of others come first
    ("+", &[Given::Uint32, Given::Int(1)], Some(SigId::AddInt64)),
    // what is untyped costs nothing
    ("+", &[Given::Uint64, Given::Null], Some(SigId::AddUint64)),
    ("+", &[Given::Null, Given::Null], Some(SigId::AddInt64)),
    (
        "concat",
        &[Given::Null, Given::Bytes],
        Some(SigId::ConcatBytes),
    ),
    // how many arguments a row takes
    ("SUBSTR", &[Given::Text], None),
    (
        "SUBSTR",
        &[Given::Text, Given::Int64, Given::Int64, Given::Int64],
        None,
    ),
    ("COALESCE", &[], None),
    ("-", &[Given::Uint64], None),
    // what the open types have to be
    ("=", &[Given::Texts, Given::Texts], None),
    ("<", &[Given::Text, Given::Int64], None),
    ("ARRAY_INCLUDES", &[Given::Texts, Given::Int64], None),
    (
        "DATE_ADD",
        &[
            Given::String("2024-01-31"),
            Given::Int(1),
            Given::String("MONTH"),
        ],
        Some(SigId::DateAdd),
    ),
    ("NOSUCH", &[Given::Int64], None),
];

/// A name, the arguments, and the value of the call.
const VALUES: [(&str, &[Given], Given); 27] = [
    // overflow
    (
        "-",
        &[
            Given::Uint(18_446_744_073_709_551_615),
            Given::Uint(9_223_372_036_854_775_808),
        ],
        Given::Int(9_223_372_036_854_775_807),
    ),
    (
        "SAFE_ADD",
        &[Given::Int(9_223_372_036_854_775_807), Given::Int(1)],
        Given::Null,
    ),
    (
        "MOD",
        &[Given::Int(-9_223_372_036_854_775_808), Given::Int(-1)],
        Given::Int(0),
    ),
    ("<<", &[Given::Int(1), Given::Int(64)], Given::Int(0)),
    // texts
    (
        "SUBSTR",
        &[Given::String("h\u{e9}llo"), Given::Int(2), Given::Int(3)],
        Given::String("\u{e9}ll"),
    ),
    (
        "SUBSTR",
        &[Given::String("abc"), Given::Int(-2), Given::Int(1)],
        Given::String("b"),
    ),
    ("LENGTH", &[Given::String("h\u{e9}llo")], Given::Int(5)),
    ("BYTE_LENGTH", &[Given::String("h\u{e9}llo")], Given::Int(6)),
    (
        "STRPOS",
        &[Given::String("abc"), Given::String("d")],
        Given::Int(0),
    ),
    (
        "TO_HEX",
        &[Given::Binary(b"\xc3\xa9")],
        Given::String("c3a9"),
    ),
    (
        "LIKE",
        &[Given::String("abc"), Given::String("a%")],
        Given::Truth(true),
    ),
    ("LIKE", &[Given::Null, Given::String("a\\")], Given::Null),
    (
        "CONCAT",
        &[Given::String("a"), Given::String("b"), Given::String("c")],
        Given::String("abc"),
    ),
    // dates
    (
        "DATE_ADD",
        &[
            Given::Day("2024-01-31"),
            Given::Int(1),
            Given::String("MONTH"),
        ],
        Given::Day("2024-02-29"),
    ),
    (
        "DATE_ADD",
        &[
            Given::String("2023-11-30"),
            Given::Int(3),
            Given::String("MONTH"),
        ],
        Given::Day("2024-02-29"),
    ),
    (
        "DATE_DIFF",
        &[
            Given::Day("2024-03-01"),
            Given::Day("2024-02-28"),
            Given::String("DAY"),
        ],
        Given::Int(2),
    ),
    (
        "DATE_DIFF",
        &[
            Given::Day("2024-03-03"),
            Given::Day("2024-03-02"),
            Given::String("WEEK"),
        ],
        Given::Int(1),
    ),
    (
        "EXTRACT",
        &[Given::String("DAYOFWEEK"), Given::Day("2024-02-29")],
        Given::Int(5),
    ),
    // rows with a rule of their own for NULL
    (
        "BETWEEN",
        &[Given::Int(1), Given::Int(2), Given::Null],
        Given::Truth(false),
    ),
    ("IS NULL", &[Given::Null], Given::Truth(true)),
    ("IS TRUE", &[Given::Null], Given::Truth(false)),
    (
        "IS DISTINCT FROM",
        &[Given::Null, Given::Null],
        Given::Truth(false),
    ),
    (
        "IF",
        &[Given::Null, Given::Int(1), Given::Int(2)],
        Given::Int(2),
    ),
    ("COALESCE", &[Given::Null, Given::Int(2)], Given::Int(2)),
    ("IFERROR", &[Given::Int(7), Given::Int(1)], Given::Int(7)),
    ("DIV", &[Given::Null, Given::Int(0)], Given::Null),
    (
        "ARRAY_INCLUDES",
        &[Given::Empty, Given::String("a")],
        Given::Truth(false),
    ),
];

/// A name, the arguments, and the fault of the call.
const FAULTS: [(&str, &[Given], FaultKind); 8] = [
    (
        "+",
        &[Given::Int(9_223_372_036_854_775_807), Given::Int(1)],
        FaultKind::OutOfRange,
    ),
    (
        "-",
        &[Given::Int(-9_223_372_036_854_775_808)],
        FaultKind::OutOfRange,
    ),
    (
        "DIV",
        &[Given::Int(1), Given::Int(0)],
        FaultKind::DivisionByZero,
    ),
    (
        "SUBSTR",
        &[Given::String("ab"), Given::Int(1), Given::Int(-1)],
        FaultKind::Argument,
    ),
    (">>", &[Given::Int(0), Given::Int(-1)], FaultKind::Argument),
    ("ARRAY_FIRST", &[Given::Empty], FaultKind::Index),
    (
        "LIKE",
        &[Given::String("a"), Given::String("a\\")],
        FaultKind::Pattern,
    ),
    ("ERROR", &[Given::Null], FaultKind::User),
];

#[test]
fn operators(rt: HostRuntime) -> Result<(), Fail> {
    assert!(rt; all_chosen(rt.alloc(), &OPERATORS)?);
    Ok(())
}

#[test]
fn comparisons(rt: HostRuntime) -> Result<(), Fail> {
    assert!(rt; all_chosen(rt.alloc(), &COMPARISONS)?);
    Ok(())
}

#[test]
fn numbers(rt: HostRuntime) -> Result<(), Fail> {
    assert!(rt; all_chosen(rt.alloc(), &NUMBERS)?);
    Ok(())
}

#[test]
fn texts(rt: HostRuntime) -> Result<(), Fail> {
    assert!(rt; all_chosen(rt.alloc(), &TEXTS)?);
    Ok(())
}

#[test]
fn arrays_and_dates(rt: HostRuntime) -> Result<(), Fail> {
    assert!(rt; all_chosen(rt.alloc(), &ARRAYS_AND_DATES)?);
    Ok(())
}

#[test]
fn aggregates(rt: HostRuntime) -> Result<(), Fail> {
    assert!(rt; all_chosen(rt.alloc(), &AGGREGATES)?);
    Ok(())
}

#[test]
fn by_cost(rt: HostRuntime) -> Result<(), Fail> {
    let alloc = rt.alloc();
    for (name, given, sig) in CHOICES {
        assert_eq!(rt; chosen(alloc, name, given)?, sig);
    }
    Ok(())
}

#[test]
fn values(rt: HostRuntime) -> Result<(), Fail> {
    let alloc = rt.alloc();
    for (name, given, want) in VALUES {
        let wanted = value(alloc, want)?;
        match call(alloc, name, given) {
            Ok(answer) => assert!(rt; same(&answer, &wanted)),
            Err(_) => assert!(rt; false),
        }
    }
    Ok(())
}

#[test]
fn faults(rt: HostRuntime) -> Result<(), Fail> {
    let alloc = rt.alloc();
    for (name, given, fault) in FAULTS {
        match call(alloc, name, given) {
            Ok(_) => assert!(rt; false),
            Err(found) => assert_eq!(rt; found, CallFault::Fault(fault)),
        }
    }
    Ok(())
}

/// The conversions beside the calls: a text that is no number, and a text to bytes.
#[test]
fn conversions(rt: HostRuntime) -> Result<(), Fail> {
    let alloc = rt.alloc();
    let x = argument(alloc, Given::String("x"))?;
    match converted(
        alloc,
        &value(alloc, Given::String("x"))?,
        &x,
        &SqlType::Int64,
    ) {
        Ok(_) => assert!(rt; false),
        Err(found) => assert_eq!(rt; found, CallFault::Fault(FaultKind::Cast)),
    }
    let bytes = value(alloc, Given::Binary(b"\xc3\xa9"))?;
    match converted(
        alloc,
        &value(alloc, Given::String("\u{e9}"))?,
        &x,
        &SqlType::Bytes,
    ) {
        Ok(answer) => assert!(rt; same(&answer, &bytes)),
        Err(_) => assert!(rt; false),
    }
    Ok(())
}

/// Whether each row of a table is chosen for its arguments.
fn all_chosen(alloc: Global, rows: &[Chosen]) -> Result<bool, AllocError> {
    for (name, given, sig) in rows {
        match chosen(alloc, name, given)? {
            Some(found) => {
                if found != *sig {
                    return Ok(false);
                }
            }
            None => return Ok(false),
        }
    }
    Ok(true)
}

/// The row that is chosen.
fn chosen(alloc: Global, name: &str, given: &[Given]) -> Result<Option<SigId>, AllocError> {
    let name = Text::copy_of(alloc, name)?;
    let arguments = arguments(alloc, given)?;
    match choose(alloc, &name, arguments.as_slice())? {
        Some(choice) => Ok(Some(choice.sig)),
        None => Ok(None),
    }
}

/// The row is chosen, the arguments are converted, and the row is applied to them.
fn call(alloc: Global, name: &str, given: &[Given]) -> Result<Value, CallFault> {
    let name = Text::copy_of(alloc, name)?;
    let arguments = arguments(alloc, given)?;
    match choose(alloc, &name, arguments.as_slice())? {
        Some(choice) => {
            let values = all_converted(
                alloc,
                given,
                arguments.as_slice(),
                choice.targets.as_slice(),
            )?;
            if !are_fitting(choice.targets.as_slice(), values.as_slice()) {
                return Err(CallFault::OutOfMemory);
            }
            apply(alloc, choice.sig, &choice.gives, values.as_slice())
        }
        None => Err(CallFault::OutOfMemory),
    }
}

fn all_converted(
    alloc: Global,
    given: &[Given],
    arguments: &[Arg],
    targets: &[SqlType],
) -> Result<Values, CallFault> {
    let mut values = Items::new(alloc);
    let mut more_arguments = arguments;
    let mut more_targets = targets;
    for one in given {
        match (more_arguments, more_targets) {
            ([argument, rest_arguments @ ..], [target, rest_targets @ ..]) => {
                let value = value(alloc, *one)?;
                values.push(converted(alloc, &value, argument, target)?)?;
                more_arguments = rest_arguments;
                more_targets = rest_targets;
            }
            _ => return Err(CallFault::OutOfMemory),
        }
    }
    Ok(values)
}

/// The value of an argument at its target; an untyped `[]` is one of every ARRAY.
fn converted(
    alloc: Global,
    value: &Value,
    argument: &Arg,
    target: &SqlType,
) -> Result<Value, CallFault> {
    match &argument.ty {
        None => Ok(Value::Null),
        Some(from) => match &argument.kind {
            Kind::Untyped => Ok(Value::Array(Items::new(alloc))),
            _ => {
                if !castable(from, target) || !fits(value, from) {
                    return Err(CallFault::OutOfMemory);
                }
                convert(alloc, value, from, target)
            }
        },
    }
}

/// As many values as types, each fitting its type.
fn are_fitting(targets: &[SqlType], values: &[Value]) -> bool
    ensures { result ≡ fits_types targets.now values.now }
{
    let mut rest = values;
    for target in targets {
        match rest {
            [] => return false,
            [value, more @ ..] => {
                if !fits(value, target) {
                    return false;
                }
                rest = more;
            }
        }
    }
    rest.is_empty()
}

fn arguments(alloc: Global, given: &[Given]) -> Result<Vec<Arg>, AllocError> {
    let mut arguments = Vec::new(alloc);
    for one in given {
        arguments.push(argument(alloc, *one)?)?;
    }
    Ok(arguments)
}

fn argument(alloc: Global, given: Given) -> Result<Arg, AllocError> {
    let ty = type_of(alloc, given)?;
    let kind = match given {
        Given::Null | Given::Empty => Kind::Untyped,
        Given::Bool | Given::Int32 | Given::Int64 | Given::Uint32 | Given::Uint64 => Kind::Other,
        Given::Text | Given::Bytes | Given::Date | Given::Texts => Kind::Other,
        _ => Kind::Literal(value(alloc, given)?),
    };
    Ok(Arg { ty, kind })
}

fn type_of(alloc: Global, given: Given) -> Result<Option<SqlType>, AllocError> {
    match given {
        Given::Null => Ok(None),
        Given::Empty => Ok(Some(SqlType::Array(Boxed::new(alloc, SqlType::Int64)?))),
        Given::Truth(_) | Given::Bool => Ok(Some(SqlType::Bool)),
        Given::Int32 => Ok(Some(SqlType::Int32)),
        Given::Int(_) | Given::Int64 => Ok(Some(SqlType::Int64)),
        Given::Uint32 => Ok(Some(SqlType::Uint32)),
        Given::Uint(_) | Given::Uint64 => Ok(Some(SqlType::Uint64)),
        Given::String(_) | Given::Text => Ok(Some(SqlType::Text)),
        Given::Binary(_) | Given::Bytes => Ok(Some(SqlType::Bytes)),
        Given::Day(_) | Given::Date => Ok(Some(SqlType::Date)),
        Given::Texts => Ok(Some(SqlType::Array(Boxed::new(alloc, SqlType::Text)?))),
    }
}

/// The value of a literal. A column has NULL.
fn value(alloc: Global, given: Given) -> Result<Value, AllocError> {
    match given {
        Given::Truth(truth) => Ok(Value::Bool(truth)),
        Given::Int(number) => Ok(Value::Int(number)),
        Given::Uint(number) => Ok(Value::Uint(number)),
        Given::String(text) => Ok(Value::Text(Text::copy_of(alloc, text)?)),
        Given::Binary(bytes) => Ok(Value::Bytes(Items::from_slice(alloc, bytes)?)),
        Given::Day(text) => match read_date(text.as_bytes()) {
            Some(day) => Ok(Value::Date(day)),
            None => Ok(Value::Null),
        },
        _ => Ok(Value::Null),
    }
}
