//! What holds of the answers of all rows of the signature table.
ghost use Rattle.std.specs.Prelude.{◌≡◌, true, List, Ok};
ghost use Rattle.sql_types.specs.declared.sql_type.SqlType.{SqlType};
ghost use Rattle.sql_types.specs.declared.value.Value.{Value};
ghost use Rattle.sql_types.specs.Fits.{fits};
ghost use Rattle.sql_builtins.specs.declared.sig.SigId.{SigId};
ghost use Rattle.sql_builtins.specs.Applies.{apply};
ghost use Rattle.sql_builtins.specs.Fitting.{Fitting};

/// A value that a row answers for values which fit it fits the type that the row gives for them.
pub fn answers_fit()
    ensures { (sig : SigId) (gives : SqlType) (values : List Value) (answer : Value) → Fitting sig gives values → apply sig values ≡ Ok answer → fits gives answer ≡ true }
{}
