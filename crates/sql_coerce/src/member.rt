//! What the supertype of a list looks at.
use crate::arg::Kind;
use sql_types::SqlType;
use std::marker::Model;

/// A member of a list that isn't untyped, or a field of one, where it stands.
#[derive(Drop)]
pub(crate) struct Member<'a> {
    pub(crate) ty: &'a SqlType,
    pub(crate) kind: &'a Kind,
}

impl<'a> Model for Member<'a> {
    ghost use Rattle.std.specs.Coded.{codes};
    ghost use Rattle.sql_types.specs.contracts.sql_type.SqlType as sql_type;
    ghost use Rattle.sql_coerce.specs.contracts.arg.Kind as kinds;
    ghost use Rattle.sql_coerce.specs.Supertypes as supertypes;

    ghost Value = { supertypes.Member };

    ghost view = { λ m. record { ty = m.ty.now; kind = m.kind.now } };

    ghost coded = { Prim.hlevel (codes, sql_type.the_row.coded, kinds.the_row.coded) };
}
