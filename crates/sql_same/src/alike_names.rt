//! Names, words and written types.
ghost use Rattle.std.specs.Prelude.{◌≡◌, ◌↔◌, IsTrue, ℕ, map};
ghost use Rattle.std.specs.Str.{str_to_ascii_lowercase};
ghost use Rattle.sql_same.specs.Bare as bare;

use crate::alike::Alike;
use sql_ast::{
    Function, Name, Prefix, TypeField, TypeSpelling, UnpivotColumn, WithOffset, same_name,
};
use sql_types::{Bytes, Items, Text};

/// Whether two names are the same: `same_name`, said of the names in lower case.
pub fn same_letters(left: &Text, right: &Text) -> bool
    ensures { IsTrue result ↔ (str_to_ascii_lowercase left.now ≡ str_to_ascii_lowercase right.now) }
{
    same_name(left, right)
}

impl Alike for Name {
    ghost bare = { bare.bare_name str_to_ascii_lowercase };

    fn alike(&self, other: &Name) -> bool {
        same_letters(&self.text, &other.text)
    }
}

/// The word IF is no name.
impl Alike for Function {
    ghost bare = { bare.bare_function str_to_ascii_lowercase };

    fn alike(&self, other: &Function) -> bool {
        match (self, other) {
            (Function::If, Function::If) => true,
            (Function::Named { name }, Function::Named { name: more }) => same_letters(name, more),
            _ => false,
        }
    }
}

impl Alike for WithOffset {
    ghost bare = { bare.bare_offset str_to_ascii_lowercase };

    fn alike(&self, other: &WithOffset) -> bool {
        self.alias.alike(&other.alias)
    }
}

/// The text of a literal, byte by byte.
impl Alike for Text {
    ghost bare = { bare.as_is };

    fn alike(&self, other: &Text) -> bool {
        self.as_bytes() == other.as_bytes()
    }
}

/// Whether two byte strings are equal.
pub fn same_bytes(left: &Bytes, right: &Bytes) -> bool
    ensures { IsTrue result ↔ (left.now ≡ right.now) }
{
    left.as_slice() == right.as_slice()
}

/// Whether as many operators stand, wherever each does.
#[tactic(auto, using(crate::proofs::CountLaws::as_many))]
pub fn same_count(left: &Items<u64>, right: &Items<u64>) -> bool
    ensures { IsTrue result ↔ (map {B = ℕ} (λ place. 0) left.now ≡ map {B = ℕ} (λ place. 0) right.now) }
{
    left.len() == right.len()
}

impl Alike for UnpivotColumn {
    ghost bare = { bare.bare_column str_to_ascii_lowercase };

    fn alike(&self, other: &UnpivotColumn) -> bool {
        self.name.alike(&other.name) && self.label.alike(&other.label)
    }
}

impl Alike for Prefix {
    ghost bare = { bare.bare_prefix };

    fn alike(&self, other: &Prefix) -> bool {
        self.operator == other.operator
    }
}

impl<T: Alike> Alike for TypeField<T> {
    ghost bare = { bare.bare_field str_to_ascii_lowercase T.bare };

    fn alike(&self, other: &TypeField<T>) -> bool {
        self.name.alike(&other.name) && self.ty.alike(&other.ty)
    }
}

impl Alike for TypeSpelling {
    ghost bare = { bare.BareType str_to_ascii_lowercase };

    fn alike(&self, other: &TypeSpelling) -> bool {
        match self {
            TypeSpelling::Name { name } => match other {
                TypeSpelling::Name { name: other_name } => name.alike(other_name),
                _ => false,
            },
            TypeSpelling::Array { element, .. } => match other {
                TypeSpelling::Array {
                    element: other_element,
                    ..
                } => element.alike(other_element),
                _ => false,
            },
            TypeSpelling::Struct { fields, .. } => match other {
                TypeSpelling::Struct {
                    fields: other_fields,
                    ..
                } => fields.alike(other_fields),
                _ => false,
            },
        }
    }
}
