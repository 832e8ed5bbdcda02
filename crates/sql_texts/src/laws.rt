//! What holds of the texts of all values and rows.
ghost use Rattle.std.specs.Prelude.{◌≡◌, true, List};
ghost use Rattle.std.specs.List.{list_all};
ghost use Rattle.sql_types.specs.declared.sql_type.Named.{Named};
ghost use Rattle.sql_types.specs.declared.sql_type.SqlType.{SqlType};
ghost use Rattle.sql_types.specs.declared.value.Value.{Value};
ghost use Rattle.sql_types.specs.Fits.{fits, fits_row};
ghost use Rattle.sql_ast.specs.Literals.{LiteralText};
ghost use Rattle.sql_ast.specs.Rows.{RowsText};

/// The literal of a value of a type is that of no other value of this type: it tells NULL from the text `NULL`, and where
/// each text and each part ends. Values of two types may share one, as INT64 5 and UINT64 5 do.
pub fn literal_text_once()
    ensures { (ty : SqlType) (left right : Value) → fits ty left ≡ true → fits ty right ≡ true → LiteralText left ≡ LiteralText right → left ≡ right }
{}

/// For given columns, two lists of fitting rows that have one text are equal: the text tells how many rows there are, in
/// which order they stand, and each of their values.
pub fn rows_text_once()
    ensures { (columns : List (Named SqlType)) (left right : List (List Value)) → list_all (fits_row columns) left ≡ true → list_all (fits_row columns) right ≡ true → RowsText columns left ≡ RowsText columns right → left ≡ right }
{}
