//! Numbers as values of the integer types.
ghost use Rattle.std.specs.Prelude.{◌≡◌};
ghost use Rattle.sql_types.specs.declared.sql_type.SqlType.{out-SqlType};
ghost use Rattle.sql_types.specs.declared.sql_type.SqlType.TheOpen.{Int32 as int32, Int64 as int64, Uint32 as uint32, Uint64 as uint64};
ghost use Rattle.sql_coerce.specs.Casts as casts;

use sql_types::{SqlType, Value};

/// The number as a value of an integer type, where the type has it. Nothing for another type.
pub fn integer_value(ty: &SqlType, number: i128) -> Option<Value>
    ensures { result ≡ casts.integer_value (out-SqlType ty.now) number }
{
    match ty {
        SqlType::Int32 => int32_value(number),
        SqlType::Int64 => int64_value(number),
        SqlType::Uint32 => uint32_value(number),
        SqlType::Uint64 => uint64_value(number),
        _ => None,
    }
}

fn int32_value(number: i128) -> Option<Value>
    ensures { result ≡ casts.integer_value int32 number }
{
    let narrow = i32::try_from(number).ok()?;
    Some(Value::Int(i64::from(narrow)))
}

fn int64_value(number: i128) -> Option<Value>
    ensures { result ≡ casts.integer_value int64 number }
{
    let narrow = i64::try_from(number).ok()?;
    Some(Value::Int(narrow))
}

fn uint32_value(number: i128) -> Option<Value>
    ensures { result ≡ casts.integer_value uint32 number }
{
    let narrow = u32::try_from(number).ok()?;
    Some(Value::Uint(u64::from(narrow)))
}

fn uint64_value(number: i128) -> Option<Value>
    ensures { result ≡ casts.integer_value uint64 number }
{
    let narrow = u64::try_from(number).ok()?;
    Some(Value::Uint(narrow))
}
