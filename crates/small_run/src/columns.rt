//! Names in the scope of one table.
ghost use Rattle.std.specs.Prelude.{◌≡◌};
ghost use Rattle.sql_rules.specs.Scopes as scopes;
ghost use Rattle.sql_rules.specs.Tables.{column_entries};
ghost use Rattle.small_run.specs.Parts.{only, NamesColumn};

use sql_ast::same_name;
use sql_catalog::TableDef;
use sql_types::{Column, Text};

/// The place of the column that a name denotes where the table stands alone in FROM. There is none where the name is
/// the table's own, which is its range variable, or no column's, or that of two columns.
pub fn column_named(table: &TableDef, name: &Text) -> Option<usize>
    ensures { NamesColumn table.now name.now result }
{
    if same_name(&table.name, name) {
        None
    } else {
        only_column(table.columns.as_slice(), name)
    }
}

/// The place of the column of this name, if there is just one.
fn only_column(columns: &[Column], name: &Text) -> Option<usize>
    ensures { result ≡ only (scopes.columns name.now (column_entries columns.now)) }
{
    let mut found = None;
    for (place, column) in columns.iter().enumerate() {
        if is_named(column, name) {
            if found.is_some() {
                return None;
            }
            found = Some(place);
        }
    }
    found
}

/// Whether a column has this name.
fn is_named(column: &Column, name: &Text) -> bool
    ensures { result ≡ scopes.is_named column.now.name name.now }
{
    match &column.name {
        None => false,
        Some(own) => same_name(own, name),
    }
}
