//! The names of the entries.
ghost use Rattle.std.specs.Prelude.{false};
ghost use Rattle.sql_catalog.specs.Sorts.{definition_name, is_function};

use crate::entries::{Definition, ParamDef, TableDef};
use crate::slot::Called;
use sql_types::Text;

impl Called for TableDef {
    ghost called = { λ table. table.name };

    ghost sort = { λ _. false };

    fn name(&self) -> &Text {
        &self.name
    }

    fn is_function(&self) -> bool {
        false
    }
}

impl Called for Definition {
    ghost called = { definition_name };

    ghost sort = { is_function };

    fn name(&self) -> &Text {
        match self {
            Definition::View { view } => &view.name,
            Definition::Function { function } => &function.name,
        }
    }

    fn is_function(&self) -> bool {
        matches!(self, Definition::Function { .. })
    }
}

impl Called for ParamDef {
    ghost called = { λ param. param.name };

    ghost sort = { λ _. false };

    fn name(&self) -> &Text {
        &self.name
    }

    fn is_function(&self) -> bool {
        false
    }
}
