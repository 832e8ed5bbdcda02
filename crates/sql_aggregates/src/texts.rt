//! The texts of a list, joined.
ghost use Rattle.std.specs.Prelude.{◌≡◌, ◌++◌, IfOk, string_bytes, true};
ghost use Rattle.std.specs.List.{list_all};
ghost use Rattle.sql_types.specs.declared.sql_type.SqlType.TheVariants as types;
ghost use Rattle.sql_types.specs.Fits.{fits};
ghost use Rattle.sql_types.specs.Takes as takes;
ghost use Rattle.sql_aggregates.specs.Aggregates as rows;

use sql_types::{Text, Value, copy_value};
use std::alloc::{AllocError, Global};

/// What stands between the texts: the second of these arguments, or a comma.
pub(crate) fn separator(alloc: Global, arguments: &[Value]) -> Result<Value, AllocError>
    ensures { IfOk result (λ s. s ≡ rows.separator arguments.now) }
{
    match arguments {
        [_, separator, ..] => copy_value(alloc, separator),
        _ => Ok(Value::Text(Text::copy_of(alloc, ",")?)),
    }
}

/// The texts with the separator between. NULL where there is none, and where the separator is NULL.
pub(crate) fn joined(alloc: Global, separator: &Value, texts: &[Value]) -> Result<Value, AllocError>
    requires separator { fits types.Text separator.now ≡ true }
    requires texts { list_all (fits types.Text) texts.now ≡ true }
    ensures { IfOk result (λ v. v ≡ rows.joined separator.now texts.now) }
{
    match separator {
        Value::Text(between) => match texts {
            [first, rest @ ..] => {
                let text = joined_texts(alloc, between.as_str(), first, rest)?;
                Ok(Value::Text(Text::from_string(text)))
            }
            [] => Ok(Value::Null),
        },
        _ => Ok(Value::Null),
    }
}

fn joined_texts(
    alloc: Global,
    between: &str,
    first: &Value,
    rest: &[Value],
) -> Result<String, AllocError>
    requires first { fits types.Text first.now ≡ true }
    requires rest { list_all (fits types.Text) rest.now ≡ true }
    ensures { IfOk result (λ text. string_bytes text ≡ takes.content first.now ++ rows.continued between.now rest.now) }
{
    let mut text = String::from_str(alloc, text_of(first))?;
    for value in rest {
        text.push_str(between)?;
        text.push_str(text_of(value))?;
    }
    Ok(text)
}

/// The text of a STRING. That of NULL is empty.
fn text_of(value: &Value) -> &str
    requires { fits types.Text value.now ≡ true }
    ensures { result.now ≡ takes.content value.now }
{
    match value {
        Value::Text(text) => text.as_str(),
        _ => "",
    }
}
