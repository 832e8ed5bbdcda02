//! Types as they are written in a text.
use crate::clauses::Name;
use sql_types::{Boxed, Items};

/// A type as it is spelled. Typing says whether it names a type.
#[derive(Drop)]
pub enum TypeSpelling {
    Name {
        name: Name,
    },
    Array {
        element: Boxed<TypeSpelling>,
        place: u64,
    },
    Struct {
        fields: Items<TypeField<TypeSpelling>>,
        place: u64,
    },
}

/// A field of a written STRUCT type, which may be unnamed.
#[derive(Drop)]
pub struct TypeField<T> {
    pub name: Option<Name>,
    pub ty: T,
}
