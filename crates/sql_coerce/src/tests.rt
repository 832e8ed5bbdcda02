//! The tables of coercion, supertype and cast.
use crate::{
    Arg, Kind, castable, coerces, convert, read_bool, read_int64, read_integer, supertype,
};
use sql_types::{
    Boxed, CallFault, FaultKind, Items, Named, SqlType, Text, Value, fits, same, same_type,
};
use std::alloc::{AllocError, Global};
use std::test::Fail;

/// A value of the tables.
#[derive(Clone, Copy)]
enum Given {
    Null,
    Bool(bool),
    Int(i64),
    Uint(u64),
    Text(&'static str),
    Bytes(&'static [u8]),
    Day(i32),
}

/// A type of the tables.
#[derive(Clone, Copy)]
enum Type {
    Bool,
    Int32,
    Int64,
    Uint32,
    Uint64,
    Text,
    Bytes,
    Date,
    /// ARRAY<INT32>
    Array32,
    /// ARRAY<INT64>
    Array64,
    /// STRUCT<a INT32, STRING>
    Pair32,
    /// STRUCT<a INT64, STRING>
    Pair64,
    /// STRUCT<a UINT32, STRING>
    PairU32,
    /// STRUCT<a INT32, DATE>
    PairDate,
    /// STRUCT<INT32>
    Single,
}

/// An expression of the tables.
#[derive(Clone, Copy)]
enum Expression {
    Null,
    /// `[]`
    Empty,
    Literal(Type, Given),
    Parameter(Type),
    Other(Type),
}

/// A value, the types that it is cast from and to, and what it gives, or None where it fails.
const CASTS: [(Given, Type, Type, Option<Given>); 28] = [
    (Given::Null, Type::Text, Type::Int64, Some(Given::Null)),
    // a type to itself
    (
        Given::Int(-7),
        Type::Int32,
        Type::Int32,
        Some(Given::Int(-7)),
    ),
    (
        Given::Uint(7),
        Type::Uint64,
        Type::Uint64,
        Some(Given::Uint(7)),
    ),
    (
        Given::Bool(true),
        Type::Bool,
        Type::Bool,
        Some(Given::Bool(true)),
    ),
    (
        Given::Bytes(b"\xff"),
        Type::Bytes,
        Type::Bytes,
        Some(Given::Bytes(b"\xff")),
    ),
    (Given::Day(0), Type::Date, Type::Date, Some(Given::Day(0))),
    // an integer to an integer
    (
        Given::Int(-7),
        Type::Int32,
        Type::Int64,
        Some(Given::Int(-7)),
    ),
    (
        Given::Int(-2_147_483_648),
        Type::Int64,
        Type::Int32,
        Some(Given::Int(-2_147_483_648)),
    ),
    (Given::Int(2_147_483_648), Type::Int64, Type::Int32, None),
    (
        Given::Int(4_294_967_295),
        Type::Int64,
        Type::Uint32,
        Some(Given::Uint(4_294_967_295)),
    ),
    (Given::Int(4_294_967_296), Type::Int64, Type::Uint32, None),
    (Given::Int(-1), Type::Int32, Type::Uint64, None),
    (
        Given::Uint(5),
        Type::Uint32,
        Type::Int32,
        Some(Given::Int(5)),
    ),
    (
        Given::Uint(9_223_372_036_854_775_807),
        Type::Uint64,
        Type::Int64,
        Some(Given::Int(9_223_372_036_854_775_807)),
    ),
    (
        Given::Uint(9_223_372_036_854_775_808),
        Type::Uint64,
        Type::Int64,
        None,
    ),
    // BOOL and an integer
    (
        Given::Bool(true),
        Type::Bool,
        Type::Int32,
        Some(Given::Int(1)),
    ),
    (
        Given::Bool(false),
        Type::Bool,
        Type::Uint64,
        Some(Given::Uint(0)),
    ),
    (
        Given::Int(0),
        Type::Int64,
        Type::Bool,
        Some(Given::Bool(false)),
    ),
    (
        Given::Int(-5),
        Type::Int32,
        Type::Bool,
        Some(Given::Bool(true)),
    ),
    (
        Given::Uint(2),
        Type::Uint32,
        Type::Bool,
        Some(Given::Bool(true)),
    ),
    // to STRING
    (
        Given::Int(-9_223_372_036_854_775_808),
        Type::Int64,
        Type::Text,
        Some(Given::Text("-9223372036854775808")),
    ),
    (
        Given::Uint(18_446_744_073_709_551_615),
        Type::Uint64,
        Type::Text,
        Some(Given::Text("18446744073709551615")),
    ),
    (
        Given::Bool(true),
        Type::Bool,
        Type::Text,
        Some(Given::Text("true")),
    ),
    (
        Given::Bool(false),
        Type::Bool,
        Type::Text,
        Some(Given::Text("false")),
    ),
    (
        Given::Bytes(b"h\xc3\xa9"),
        Type::Bytes,
        Type::Text,
        Some(Given::Text("h\u{e9}")),
    ),
    (Given::Bytes(b"\xff"), Type::Bytes, Type::Text, None),
    (
        Given::Day(19_782),
        Type::Date,
        Type::Text,
        Some(Given::Text("2024-02-29")),
    ),
    (
        Given::Day(-719_162),
        Type::Date,
        Type::Text,
        Some(Given::Text("0001-01-01")),
    ),
];

/// A STRING, the type that it is cast to, and what it gives, or None where it fails.
const TEXTS: [(&str, Type, Option<Given>); 33] = [
    ("-0x1F", Type::Int64, Some(Given::Int(-31))),
    ("+0xfF", Type::Int64, Some(Given::Int(255))),
    ("+7", Type::Int64, Some(Given::Int(7))),
    (
        "0000000000000000000000000000012",
        Type::Int32,
        Some(Given::Int(12)),
    ),
    (
        "-9223372036854775808",
        Type::Int64,
        Some(Given::Int(-9_223_372_036_854_775_808)),
    ),
    ("9223372036854775808", Type::Int64, None),
    (
        "9223372036854775808",
        Type::Uint64,
        Some(Given::Uint(9_223_372_036_854_775_808)),
    ),
    ("18446744073709551616", Type::Uint64, None),
    ("-0", Type::Uint64, Some(Given::Uint(0))),
    ("-1", Type::Uint32, None),
    ("4294967295", Type::Uint32, Some(Given::Uint(4_294_967_295))),
    ("2147483648", Type::Int32, None),
    (" 1", Type::Int64, None),
    ("1 ", Type::Int64, None),
    ("0X1F", Type::Int64, None),
    ("0x", Type::Int64, None),
    ("1F", Type::Int64, None),
    ("--1", Type::Int64, None),
    ("-", Type::Int64, None),
    ("", Type::Int64, None),
    ("TrUe", Type::Bool, Some(Given::Bool(true))),
    ("false", Type::Bool, Some(Given::Bool(false))),
    ("t", Type::Bool, None),
    (" true", Type::Bool, None),
    ("1", Type::Bool, None),
    ("a", Type::Text, Some(Given::Text("a"))),
    ("h\u{e9}", Type::Bytes, Some(Given::Bytes(b"h\xc3\xa9"))),
    ("2024-2-9", Type::Date, Some(Given::Day(19_762))),
    ("0001-01-01", Type::Date, Some(Given::Day(-719_162))),
    ("9999-12-31", Type::Date, Some(Given::Day(2_932_896))),
    ("2023-02-29", Type::Date, None),
    ("2024-01-001", Type::Date, None),
    ("10000-01-01", Type::Date, None),
];

/// Pairs that the table of casts hasn't.
const NO_CASTS: [(Type, Type); 16] = [
    (Type::Bool, Type::Bytes),
    (Type::Bool, Type::Date),
    (Type::Int64, Type::Bytes),
    (Type::Int64, Type::Date),
    (Type::Bytes, Type::Int64),
    (Type::Bytes, Type::Bool),
    (Type::Bytes, Type::Date),
    (Type::Date, Type::Int64),
    (Type::Date, Type::Bytes),
    (Type::Date, Type::Bool),
    (Type::Array32, Type::Array64),
    (Type::Array32, Type::Text),
    (Type::Text, Type::Array32),
    (Type::Pair32, Type::Single),
    (Type::Single, Type::Int32),
    (Type::Single, Type::Pair32),
];

/// An expression, a type, and whether it coerces to the type.
const COERCIONS: [(Expression, Type, bool); 31] = [
    (Expression::Other(Type::Int32), Type::Int64, true),
    (Expression::Other(Type::Uint32), Type::Int64, true),
    (Expression::Other(Type::Uint32), Type::Uint64, true),
    (Expression::Other(Type::Int32), Type::Uint64, false),
    (Expression::Other(Type::Int64), Type::Int32, false),
    (Expression::Other(Type::Uint64), Type::Int64, false),
    (Expression::Other(Type::Date), Type::Date, true),
    (Expression::Other(Type::Text), Type::Date, false),
    (Expression::Other(Type::Bool), Type::Int64, false),
    (
        Expression::Literal(Type::Int64, Given::Int(5)),
        Type::Uint64,
        true,
    ),
    (
        Expression::Literal(Type::Int64, Given::Int(-5)),
        Type::Uint64,
        false,
    ),
    (
        Expression::Literal(Type::Int64, Given::Int(-5)),
        Type::Int32,
        false,
    ),
    (
        Expression::Literal(Type::Int64, Given::Int(2_147_483_647)),
        Type::Int32,
        true,
    ),
    (
        Expression::Literal(Type::Int64, Given::Int(2_147_483_648)),
        Type::Int32,
        false,
    ),
    (
        Expression::Literal(Type::Int64, Given::Int(4_294_967_295)),
        Type::Uint32,
        true,
    ),
    (
        Expression::Literal(Type::Int64, Given::Int(4_294_967_296)),
        Type::Uint32,
        false,
    ),
    (
        Expression::Literal(Type::Uint64, Given::Uint(9_223_372_036_854_775_808)),
        Type::Int64,
        false,
    ),
    (
        Expression::Literal(Type::Text, Given::Text("2024-2-9")),
        Type::Date,
        true,
    ),
    (
        Expression::Literal(Type::Text, Given::Text("2023-02-29")),
        Type::Date,
        false,
    ),
    (
        Expression::Literal(Type::Text, Given::Text("1")),
        Type::Int64,
        false,
    ),
    (Expression::Parameter(Type::Text), Type::Date, true),
    (Expression::Parameter(Type::Int64), Type::Int32, false),
    (Expression::Parameter(Type::Int32), Type::Int64, true),
    (Expression::Empty, Type::Array32, true),
    (Expression::Empty, Type::Int64, false),
    (Expression::Other(Type::Array32), Type::Array32, true),
    (Expression::Other(Type::Array32), Type::Array64, false),
    (Expression::Other(Type::Pair32), Type::Pair64, true),
    (Expression::Other(Type::Pair64), Type::Pair32, false),
    (Expression::Other(Type::Pair32), Type::Single, false),
    (Expression::Other(Type::Single), Type::Int32, false),
];

const INT32: Expression = Expression::Other(Type::Int32);

const INT64: Expression = Expression::Other(Type::Int64);

const UINT32: Expression = Expression::Other(Type::Uint32);

const UINT64: Expression = Expression::Other(Type::Uint64);

const FIVE: Expression = Expression::Literal(Type::Int64, Given::Int(5));

const MINUS: Expression = Expression::Literal(Type::Int64, Given::Int(-5));

/// Lists of expressions, and their supertype.
const SUPERTYPES: [(&[Expression], Option<Type>); 24] = [
    (&[], Some(Type::Int64)),
    (&[Expression::Null], Some(Type::Int64)),
    (&[Expression::Null, Expression::Empty], Some(Type::Array64)),
    (&[Expression::Empty, FIVE], None),
    (
        &[Expression::Null, Expression::Other(Type::Date)],
        Some(Type::Date),
    ),
    (&[INT32, UINT32], Some(Type::Int64)),
    (&[INT64, UINT64], None),
    (&[UINT32, UINT64], Some(Type::Uint64)),
    (&[INT32, UINT64], None),
    (&[FIVE, FIVE], Some(Type::Int64)),
    (&[FIVE, UINT32], Some(Type::Uint32)),
    (&[FIVE, UINT64], Some(Type::Uint64)),
    (&[MINUS, UINT64], None),
    (&[INT32, FIVE], Some(Type::Int32)),
    (
        &[
            Expression::Other(Type::Text),
            Expression::Other(Type::Bytes),
        ],
        None,
    ),
    (
        &[
            Expression::Parameter(Type::Text),
            Expression::Other(Type::Date),
        ],
        Some(Type::Date),
    ),
    (
        &[
            Expression::Parameter(Type::Text),
            Expression::Other(Type::Text),
        ],
        Some(Type::Text),
    ),
    (
        &[Expression::Other(Type::Array32), Expression::Empty],
        Some(Type::Array32),
    ),
    (
        &[
            Expression::Other(Type::Array32),
            Expression::Other(Type::Array64),
        ],
        None,
    ),
    (&[Expression::Other(Type::Array32), INT32], None),
    (
        &[
            Expression::Other(Type::Pair32),
            Expression::Other(Type::PairU32),
        ],
        Some(Type::Pair64),
    ),
    (
        &[
            Expression::Other(Type::Pair32),
            Expression::Other(Type::PairDate),
        ],
        None,
    ),
    (
        &[
            Expression::Other(Type::Pair32),
            Expression::Other(Type::Single),
        ],
        None,
    ),
    (&[INT32, Expression::Other(Type::Single)], None),
];

#[test]
fn casts(rt: HostRuntime) -> Result<(), Fail> {
    let alloc = rt.alloc();
    for (given, from, to, want) in CASTS {
        let value = made(alloc, given)?;
        assert!(rt; is_cast(alloc, &value, from, to, want)?);
    }
    Ok(())
}

#[test]
fn casts_of_texts(rt: HostRuntime) -> Result<(), Fail> {
    let alloc = rt.alloc();
    for (text, to, want) in TEXTS {
        let value = Value::Text(Text::copy_of(alloc, text)?);
        assert!(rt; is_cast(alloc, &value, Type::Text, to, want)?);
    }
    Ok(())
}

#[test]
fn no_casts(rt: HostRuntime) -> Result<(), Fail> {
    let alloc = rt.alloc();
    for (from, to) in NO_CASTS {
        assert!(rt; !castable(&named(alloc, from)?, &named(alloc, to)?));
    }
    Ok(())
}

/// A STRUCT is cast field by field, whatever the names, and fails where a field does. An ARRAY is cast to itself.
#[test]
fn casts_of_parts(rt: HostRuntime) -> Result<(), Fail> {
    let alloc = rt.alloc();
    let row = Value::Struct(two(alloc, Value::Int(-1), Value::Null)?);
    let from = named(alloc, Type::Pair32)?;
    assert!(rt;
        gives(
            alloc,
            &row,
            &from,
            &named(alloc, Type::Pair64)?,
            &Some(Value::Struct(two(alloc, Value::Int(-1), Value::Null)?))
        )?
    );
    assert!(rt; gives(alloc, &row, &from, &named(alloc, Type::PairU32)?, &None)?);
    let list = Value::Array(two(alloc, Value::Int(1), Value::Null)?);
    let ty = named(alloc, Type::Array32)?;
    assert!(rt;
        gives(
            alloc,
            &list,
            &ty,
            &ty,
            &Some(Value::Array(two(alloc, Value::Int(1), Value::Null)?))
        )?
    );
    Ok(())
}

#[test]
fn coercions(rt: HostRuntime) -> Result<(), Fail> {
    let alloc = rt.alloc();
    for (expression, to, want) in COERCIONS {
        let argument = argument(alloc, expression)?;
        assert_eq!(rt; does_coerce(&argument, &named(alloc, to)?), want);
    }
    Ok(())
}

#[test]
fn supertypes(rt: HostRuntime) -> Result<(), Fail> {
    let alloc = rt.alloc();
    for (expressions, want) in SUPERTYPES {
        let answer = supertype_of(alloc, expressions)?;
        assert!(rt; is_type(alloc, &answer, want)?);
    }
    Ok(())
}

#[test]
fn parts_of_texts(rt: HostRuntime) -> Result<(), Fail> {
    assert_eq!(rt; read_bool(b"FALSE"), Some(false));
    assert_eq!(rt; read_int64(b"-0x8000000000000000"), Some(i64::MIN));
    assert_eq!(rt; read_int64(b"18446744073709551617"), None);
    assert_eq!(rt;
        read_integer(b"-18446744073709551615"),
        Some(-18_446_744_073_709_551_615)
    );
    assert_eq!(rt; read_integer(b"18446744073709551616"), None);
    Ok(())
}

fn is_cast(
    alloc: Global,
    value: &Value,
    from: Type,
    to: Type,
    want: Option<Given>,
) -> Result<bool, AllocError> {
    let wanted = match want {
        Some(given) => Some(made(alloc, given)?),
        None => None,
    };
    gives(
        alloc,
        value,
        &named(alloc, from)?,
        &named(alloc, to)?,
        &wanted,
    )
}

/// Whether a cast gives what is wanted, or fails where nothing is.
fn gives(
    alloc: Global,
    value: &Value,
    from: &SqlType,
    to: &SqlType,
    want: &Option<Value>,
) -> Result<bool, AllocError> {
    if !castable(from, to) || !fits(value, from) {
        return Ok(false);
    }
    match convert(alloc, value, from, to) {
        Ok(answer) => match want {
            Some(wanted) => Ok(same(&answer, wanted)),
            None => Ok(false),
        },
        Err(CallFault::Fault(fault)) => Ok(fault == FaultKind::Cast && want.is_none()),
        Err(CallFault::OutOfMemory) => Err(AllocError),
    }
}

fn does_coerce(argument: &Arg, to: &SqlType) -> bool {
    match &argument.ty {
        Some(from) => coerces(from, &argument.kind, to),
        None => true,
    }
}

fn supertype_of(alloc: Global, expressions: &[Expression]) -> Result<Option<SqlType>, AllocError> {
    let mut arguments = Vec::new(alloc);
    for expression in expressions {
        arguments.push(argument(alloc, *expression)?)?;
    }
    supertype(alloc, arguments.as_slice())
}

fn is_type(
    alloc: Global,
    answer: &Option<SqlType>,
    want: Option<Type>,
) -> Result<bool, AllocError> {
    match answer {
        Some(ty) => match want {
            Some(wanted) => Ok(same_type(ty, &named(alloc, wanted)?)),
            None => Ok(false),
        },
        None => Ok(want.is_none()),
    }
}

fn made(alloc: Global, given: Given) -> Result<Value, AllocError> {
    match given {
        Given::Null => Ok(Value::Null),
        Given::Bool(truth) => Ok(Value::Bool(truth)),
        Given::Int(number) => Ok(Value::Int(number)),
        Given::Uint(number) => Ok(Value::Uint(number)),
        Given::Text(text) => Ok(Value::Text(Text::copy_of(alloc, text)?)),
        Given::Bytes(bytes) => Ok(Value::Bytes(Items::from_slice(alloc, bytes)?)),
        Given::Day(day) => Ok(Value::Date(day)),
    }
}

fn named(alloc: Global, ty: Type) -> Result<SqlType, AllocError> {
    match ty {
        Type::Bool => Ok(SqlType::Bool),
        Type::Int32 => Ok(SqlType::Int32),
        Type::Int64 => Ok(SqlType::Int64),
        Type::Uint32 => Ok(SqlType::Uint32),
        Type::Uint64 => Ok(SqlType::Uint64),
        Type::Text => Ok(SqlType::Text),
        Type::Bytes => Ok(SqlType::Bytes),
        Type::Date => Ok(SqlType::Date),
        Type::Array32 => Ok(SqlType::Array(Boxed::new(alloc, SqlType::Int32)?)),
        Type::Array64 => Ok(SqlType::Array(Boxed::new(alloc, SqlType::Int64)?)),
        Type::Pair32 => pair(alloc, SqlType::Int32, SqlType::Text),
        Type::Pair64 => pair(alloc, SqlType::Int64, SqlType::Text),
        Type::PairU32 => pair(alloc, SqlType::Uint32, SqlType::Text),
        Type::PairDate => pair(alloc, SqlType::Int32, SqlType::Date),
        Type::Single => single(alloc, SqlType::Int32),
    }
}

fn pair(alloc: Global, first: SqlType, second: SqlType) -> Result<SqlType, AllocError> {
    let name = Some(Text::copy_of(alloc, "a")?);
    let mut fields = Items::new(alloc);
    fields.push(Named { name, ty: first })?;
    fields.push(Named {
        name: None,
        ty: second,
    })?;
    Ok(SqlType::Struct(fields))
}

fn single(alloc: Global, ty: SqlType) -> Result<SqlType, AllocError> {
    let mut fields = Items::new(alloc);
    fields.push(Named { name: None, ty })?;
    Ok(SqlType::Struct(fields))
}

fn two(alloc: Global, first: Value, second: Value) -> Result<Items<Value>, AllocError> {
    let mut values = Items::new(alloc);
    values.push(first)?;
    values.push(second)?;
    Ok(values)
}

fn argument(alloc: Global, expression: Expression) -> Result<Arg, AllocError> {
    match expression {
        Expression::Null => Ok(Arg {
            ty: None,
            kind: Kind::Untyped,
        }),
        Expression::Empty => Ok(Arg {
            ty: Some(named(alloc, Type::Array64)?),
            kind: Kind::Untyped,
        }),
        Expression::Literal(ty, given) => {
            let kind = Kind::Literal(made(alloc, given)?);
            Ok(Arg {
                ty: Some(named(alloc, ty)?),
                kind,
            })
        }
        Expression::Parameter(ty) => Ok(Arg {
            ty: Some(named(alloc, ty)?),
            kind: Kind::Parameter,
        }),
        Expression::Other(ty) => Ok(Arg {
            ty: Some(named(alloc, ty)?),
            kind: Kind::Other,
        }),
    }
}
