//! Names, aliases, paths and written types.
ghost use Rattle.std.specs.Prelude.{◌≡◌, map, OnOk};
ghost use Rattle.sql_ast.specs.Canon as canon;
ghost use Rattle.sql_print.specs.Pages as pages;
ghost use Rattle.sql_print.specs.PartPieces as parts;

use crate::printed::Printed;
use crate::writer::Writer;
use sql_ast::{Name, Reserved, Sign, TypeField, TypeSpelling};
use sql_types::Items;
use std::alloc::AllocError;

impl Printed for Name {
    ghost pieces = { canon.name_pieces };

    fn print(&self, writer: &mut Writer) -> Result<(), AllocError> {
        writer.name(&self.text)
    }
}

/// AS stands before every alias.
pub fn print_alias(writer: &mut Writer, alias: &Option<Name>) -> Result<(), AllocError>
    ensures { OnOk result (writer.new ≡ pages.written writer.old (canon.alias_pieces alias.now)) }
{
    match alias {
        None => Ok(()),
        Some(name) => {
            writer.word(Reserved::As)?;
            writer.name(&name.text)
        }
    }
}

/// A path: names with dots between.
pub fn print_path(writer: &mut Writer, path: &Items<Name>) -> Result<(), AllocError>
    ensures { OnOk result (writer.new ≡ pages.written writer.old (canon.path_pieces path.now)) }
{
    match path.as_slice() {
        [] => Ok(()),
        [first, more @ ..] => {
            writer.name(&first.text)?;
            print_dots(writer, more)
        }
    }
}

fn print_dots(writer: &mut Writer, names: &[Name]) -> Result<(), AllocError>
    ensures { OnOk result (writer.new ≡ pages.written writer.old (canon.dots names.now)) }
{
    for name in names {
        writer.sign(Sign::Dot)?;
        writer.name(&name.text)?;
    }
    Ok(())
}

/// What stands between `<` and `>`.
#[tactic(auto, using(crate::proofs::PageLaws::written_append))]
pub fn print_angled<P: Printed>(writer: &mut Writer, part: &P) -> Result<(), AllocError>
    ensures { OnOk result (writer.new ≡ pages.written writer.old (canon.angled (P.pieces part.now))) }
{
    writer.close_sign(Sign::Less)?;
    part.print(writer)?;
    writer.close_sign(Sign::Greater)
}

impl<T: Printed> Printed for TypeField<T> {
    ghost pieces = { parts.field_pieces T.pieces };

    #[tactic(auto, using(crate::proofs::PageLaws::written_append))]
    fn print(&self, writer: &mut Writer) -> Result<(), AllocError> {
        self.name.print(writer)?;
        self.ty.print(writer)
    }
}

impl Printed for TypeSpelling {
    ghost pieces = { canon.type_pieces };

    fn print(&self, writer: &mut Writer) -> Result<(), AllocError> {
        match self {
            TypeSpelling::Name { name } => name.print(writer),
            TypeSpelling::Array { element, .. } => {
                writer.word(Reserved::Array)?;
                print_angled(writer, element)
            }
            TypeSpelling::Struct { fields, .. } => {
                writer.word(Reserved::Struct)?;
                print_angled(writer, fields)
            }
        }
    }
}
