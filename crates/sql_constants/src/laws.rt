//! What holds of the constants of every text.
ghost use Rattle.std.specs.Prelude.{◌≡◌, ℕ, true, List, Option, Some};
ghost use Rattle.sql_types.specs.declared.sql_type.SqlType.{SqlType};
ghost use Rattle.sql_types.specs.declared.value.Value.{Value};
ghost use Rattle.sql_types.specs.Fits.{fits};
ghost use Rattle.sql_constants.specs.Constants.{ConstantText};
ghost use Rattle.sql_constants.specs.Values.{constant_value};

/// A text is a constant of a type by one value at most, and `constant_value` is this value, or nothing.
pub fn one_constant()
    ensures some { (ty : SqlType) (text : List ℕ) → ConstantText ty text (constant_value ty text) }
    ensures one { (ty : SqlType) (text : List ℕ) (left right : Option Value) → ConstantText ty text left → ConstantText ty text right → left ≡ right }
{}

/// A constant of a type fits the type.
pub fn constants_fit()
    ensures { (ty : SqlType) (text : List ℕ) (x : Value) → ConstantText ty text (Some x) → fits ty x ≡ true }
{}
