//! The weight of names, literals and written types.
ghost use Rattle.std.specs.Prelude.{◌≡◌};
ghost use Rattle.sql_ast.specs.Weights as weights;
ghost use Rattle.sql_measures.specs.PartWeights as parts;

use crate::capped::plus;
use crate::weighed::Weighed;
use sql_ast::{Function, Name, TypeField, TypeSpelling, UnpivotColumn, WithOffset};
use sql_types::Text;

/// Every name and literal adds its length in bytes divided by 32.
pub fn length_weight(bytes: &[u8]) -> u64
    ensures { result ≡ weights.length_weight bytes.now }
{
    bytes.len() as u64 / 32
}

impl Weighed for Text {
    ghost weighs = { weights.length_weight };

    fn weight(&self) -> u64 {
        length_weight(self.as_bytes())
    }
}

impl Weighed for Name {
    ghost weighs = { weights.name_weight };

    fn weight(&self) -> u64 {
        self.text.weight()
    }
}

/// The word IF adds nothing.
impl Weighed for Function {
    ghost weighs = { weights.function_weight };

    fn weight(&self) -> u64 {
        match self {
            Function::If => 0,
            Function::Named { name } => name.weight(),
        }
    }
}

impl Weighed for WithOffset {
    ghost weighs = { weights.offset_weight };

    fn weight(&self) -> u64 {
        self.alias.weight()
    }
}

impl Weighed for UnpivotColumn {
    ghost weighs = { weights.unpivot_column_weight };

    fn weight(&self) -> u64 {
        plus(self.name.weight(), self.label.weight())
    }
}

impl<T: Weighed> Weighed for TypeField<T> {
    ghost weighs = { parts.field_weight T.weighs };

    fn weight(&self) -> u64 {
        plus(self.name.weight(), self.ty.weight())
    }
}

/// Every part of a written type counts 1.
impl Weighed for TypeSpelling {
    ghost weighs = { weights.type_weight };

    fn weight(&self) -> u64 {
        match self {
            TypeSpelling::Name { name } => plus(1, name.weight()),
            TypeSpelling::Array { element, .. } => plus(1, element.weight()),
            TypeSpelling::Struct { fields, .. } => plus(1, fields.weight()),
        }
    }
}
