//! Types of parts, and what they have to be.
ghost use Rattle.std.specs.Prelude.{◌≡◌, map, option_copied, option_map};
ghost use Rattle.sql_types.specs.declared.sql_type.SqlType.TheVariants as types;
ghost use Rattle.sql_types.specs.SameType.{same_type};
ghost use Rattle.resolved_ast.specs.Columns.{element_of};
ghost use Rattle.resolved_ast.specs.Flaws as flaws;
ghost use Rattle.resolved_ast.specs.Signatures.{typed_as};

use resolved_ast::{MadeColumn, Rex};
use sql_types::{Boxed, Field, Fields, SqlType, same_type};

/// What has a type.
pub trait Typed {
    ghost use Rattle.sql_types.specs.declared.sql_type.SqlType.{SqlType};

    // The type.
    ghost type_of: { Self → SqlType };

    /// The type. IN has none of its own, and is BOOL, which is handed in.
    fn ty<'a>(&'a self, truth: &'a SqlType) -> &'a SqlType
        requires { truth.now ≡ types.Bool }
        ensures { result.now ≡ type_of self.now };
}

impl Typed for Rex {
    ghost use Rattle.resolved_ast.specs.Columns.{rex_type};

    ghost type_of = { rex_type };

    fn ty<'a>(&'a self, truth: &'a SqlType) -> &'a SqlType {
        match self {
            Rex::Literal { ty, .. } => ty,
            Rex::Parameter { ty, .. } => ty,
            Rex::Column { ty, .. } => ty,
            Rex::Outer { ty, .. } => ty,
            Rex::Call { ty, .. } => ty,
            Rex::SafeCall { ty, .. } => ty,
            Rex::Cast { ty, .. } => ty,
            Rex::SafeCast { ty, .. } => ty,
            Rex::If { ty, .. } => ty,
            Rex::Case { ty, .. } => ty,
            Rex::Coalesce { ty, .. } => ty,
            Rex::And { ty, .. } => ty,
            Rex::Or { ty, .. } => ty,
            Rex::IfError { ty, .. } => ty,
            Rex::IsError { ty, .. } => ty,
            Rex::NullIfError { ty, .. } => ty,
            Rex::Raise { ty, .. } => ty,
            Rex::InList { .. } => truth,
            Rex::InArray { .. } => truth,
            Rex::Let { ty, .. } => ty,
            Rex::MakeArray { ty, .. } => ty,
            Rex::MakeStruct { ty, .. } => ty,
            Rex::Field { ty, .. } => ty,
            Rex::Index { ty, .. } => ty,
            Rex::Scalar { ty, .. } => ty,
            Rex::ArrayOf { ty, .. } => ty,
            Rex::Exists { ty, .. } => ty,
            Rex::InQuery { ty, .. } => ty,
        }
    }
}

impl<P: Typed> Typed for Boxed<P> {
    ghost type_of = { λ part. P.type_of part };

    fn ty<'a>(&'a self, truth: &'a SqlType) -> &'a SqlType {
        self.get().ty(truth)
    }
}

impl Typed for MadeColumn {
    ghost type_of = { λ column. column.ty };

    fn ty<'a>(&'a self, _: &'a SqlType) -> &'a SqlType {
        &self.ty
    }
}

impl Typed for Field {
    ghost type_of = { λ field. field.ty };

    fn ty<'a>(&'a self, _: &'a SqlType) -> &'a SqlType {
        &self.ty
    }
}

impl<'b> Typed for &'b SqlType {
    ghost type_of = { λ ty. ty.now };

    fn ty<'a>(&'a self, _: &'a SqlType) -> &'a SqlType {
        self
    }
}

/// Whether each part has this type.
pub fn all_of_type<P: Typed>(ty: &SqlType, parts: &[P]) -> bool
    ensures { result ≡ flaws.all_of_type ty.now (map P.type_of parts.now) }
{
    for part in parts {
        if !same_type(ty, part.ty(&SqlType::Bool)) {
            return false;
        }
    }
    true
}

/// Whether the parts have the types that are asked for, as far as there are both.
pub fn typed_as<T: Typed, P: Typed>(targets: &[T], parts: &[P]) -> bool
    ensures { result ≡ typed_as (map T.type_of targets.now) (map P.type_of parts.now) }
{
    let mut rest = targets;
    for part in parts {
        match rest {
            [] => return true,
            [target, more @ ..] => {
                if !same_type(target.ty(&SqlType::Bool), part.ty(&SqlType::Bool)) {
                    return false;
                }
                rest = more;
            }
        }
    }
    true
}

/// Whether the operands of a CASE are tests, which are BOOL, and results of its type.
pub fn case_typed<P: Typed>(ty: &SqlType, operands: &[P]) -> bool
    ensures { result ≡ flaws.case_typed ty.now (map P.type_of operands.now) }
{
    let mut rest = operands;
    while let [test, more @ ..] = rest {
        match more {
            [] => return same_type(ty, test.ty(&SqlType::Bool)),
            [value, others @ ..] => {
                if !is_truth(test) || !same_type(ty, value.ty(&SqlType::Bool)) {
                    return false;
                }
                rest = others;
            }
        }
    }
    true
}

/// Whether a part is BOOL.
fn is_truth<P: Typed>(part: &P) -> bool
    ensures { result ≡ same_type types.Bool (P.type_of part.now) }
{
    same_type(&SqlType::Bool, part.ty(&SqlType::Bool))
}

/// The element type of an ARRAY, None for every other type.
pub fn element_of(ty: &SqlType) -> Option<&SqlType>
    ensures { option_copied result ≡ element_of ty.now }
{
    match ty {
        SqlType::Array(element) => Some(element.get()),
        _ => None,
    }
}

/// Whether a type is the element type of an array.
pub fn is_element(ty: &SqlType, array: &SqlType) -> bool
    ensures { result ≡ flaws.is_type ty.now (element_of array.now) }
{
    match element_of(array) {
        None => false,
        Some(element) => same_type(ty, element),
    }
}

/// The fields of a STRUCT, None for every other type.
pub fn fields_of(ty: &SqlType) -> Option<&Fields>
    ensures { option_map (λ fields. map (λ field. field.ty) fields) (option_copied result) ≡ flaws.fields_of ty.now }
{
    match ty {
        SqlType::Struct(fields) => Some(fields),
        _ => None,
    }
}
