//! ARRAY_TO_STRING.
ghost use Rattle.std.specs.Prelude.{◌≡◌, [], ◌∷◌, ◌++◌, true, IfOk, OnOk, string_bytes, Option, Some, None, if◌then◌else◌};
ghost use Rattle.std.specs.List.{list_all};
ghost use Rattle.sql_types.specs.declared.sql_type.SqlType.TheVariants as types;
ghost use Rattle.sql_types.specs.declared.value.Value.{out-Value};
ghost use Rattle.sql_types.specs.Before.{is_null};
ghost use Rattle.sql_types.specs.Fits.{fits};
ghost use Rattle.sql_types.specs.Outcome.{Answers, just};
ghost use Rattle.sql_types.specs.Takes.{content, fits_types_or_less};
ghost use Rattle.sql_strings.specs.Rows.{apply_array_to_string, element_texts};
ghost use Rattle.sql_strings.specs.Texts.{joined_by};

use crate::arguments::{elements_of, is_null, some_null, text_of};
use sql_types::{CallFault, Text, Value};
use std::alloc::{AllocError, Global};

/// ARRAY_TO_STRING: the elements of an ARRAY<STRING> with the second value between them. NULL elements are left out, or
/// stand as the third value where there is one.
pub fn array_to_string_array_string_string(
    alloc: Global,
    values: &[Value],
) -> Result<Value, CallFault>
    requires { fits_types_or_less (types.Array types.Text ∷ types.Text ∷ []) types.Text values.now ≡ true }
    ensures { Answers (just (apply_array_to_string values.now)) result }
{
    if some_null(values) {
        return Ok(Value::Null);
    }
    match values {
        [array, separator] => {
            let made = joined_elements(alloc, elements_of(array), text_of(separator), false, "")?;
            Ok(Value::Text(made))
        }
        [array, separator, null_text] => {
            let null_text = text_of(null_text);
            let made = joined_elements(
                alloc,
                elements_of(array),
                text_of(separator),
                true,
                null_text,
            )?;
            Ok(Value::Text(made))
        }
        _ => Ok(Value::Null),
    }
}

/// The elements with the separator between them. Where `keeps_nulls` is true, `null_text` stands for NULL, and else NULL is
/// left out.
fn joined_elements(
    alloc: Global,
    elements: &[Value],
    separator: &str,
    keeps_nulls: bool,
    null_text: &str,
) -> Result<Text, AllocError>
    requires { list_all (fits types.Text) elements.now ≡ true }
    ensures { IfOk result (λ made. made ≡ joined_by separator.now (element_texts (if keeps_nulls then Some null_text.now else None) elements.now)) }
{
    let mut made = String::new(alloc);
    let mut is_first = true;
    for element in elements {
        if is_null(element) && !keeps_nulls {
            continue;
        }
        push_between(&mut made, separator, is_first)?;
        made.push_str(element_text(element, null_text))?;
        is_first = false;
    }
    Ok(Text::from_string(made))
}

/// Appends the separator, unless the element that comes is the first.
fn push_between(made: &mut String, separator: &str, is_first: bool) -> Result<(), AllocError>
    ensures { OnOk result (string_bytes made.new ≡ string_bytes made.old ++ (if is_first then [] else separator.now)) }
{
    if is_first {
        return Ok(());
    }
    made.push_str(separator)
}

/// The text of an element, where it is put.
fn element_text<'a>(element: &'a Value, null_text: &'a str) -> &'a str
    requires { fits types.Text element.now ≡ true }
    ensures { result.now ≡ (if is_null (out-Value element.now) then null_text.now else content element.now) }
{
    if is_null(element) {
        null_text
    } else {
        text_of(element)
    }
}
