//! Whether the dates in values lie in DATE's range.
ghost use Rattle.std.specs.Prelude.{◌≡◌, ◌&&◌, int_le};
ghost use Rattle.std.specs.List.{list_all};
ghost use Rattle.sql_ast.specs.Literals as literals;
ghost use Rattle.sql_types.specs.Fits.{is_day};

use sql_types::Value;

/// Whether each DATE in a value lies in DATE's range, from 0001-01-01 to 9999-12-31. It does where the value fits a type.
#[cycle(dates)]
#[tactic(auto, using(crate::proofs::LiteralLaws::array_dates, crate::proofs::LiteralLaws::struct_dates), unfolding(crate::specs::Literals::dates_fit))]
pub fn dates_fit(value: &Value) -> bool
    ensures { result ≡ literals.dates_fit value.now }
{
    match value {
        Value::Date(day) => is_date(*day),
        Value::Array(elements) => all_dates_fit(elements.as_slice()),
        Value::Struct(fields) => all_dates_fit(fields.as_slice()),
        _ => true,
    }
}

#[cycle(dates)]
fn all_dates_fit(values: &[Value]) -> bool
    ensures { result ≡ list_all literals.dates_fit values.now }
{
    for value in values {
        if !dates_fit(value) {
            return false;
        }
    }
    true
}

fn is_date(day: i32) -> bool
    ensures { result ≡ is_day day }
{
    -719_162 <= day && day <= 2_932_896
}
