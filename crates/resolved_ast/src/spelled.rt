//! How columns are spelled in the text of a tree, and lists of them.
ghost use Rattle.std.specs.Prelude.{◌≡◌, ◌++◌, OnOk, List, ℕ, codes, decimal, map};
ghost use Rattle.sql_names.specs.Commas.{joined};
ghost use Rattle.resolved_ast.specs.Numeral.{numeral};
ghost use Rattle.resolved_ast.specs.TreeText as text;

use crate::column::{ColumnId, ColumnRef, MadeColumn};
use crate::scan::Output;
use itoa::Buffer;
use sql_ast::spelling::{write_name, write_separator};
use sql_types::{Text, write_type};
use std::alloc::AllocError;

/// What stands in the list of a node.
pub trait Spelled {
    // The text.
    ghost spelled: { Self → List ℕ };

    /// Writes the text.
    fn write(&self, out: &mut Vec<u8>) -> Result<(), AllocError>
        ensures { OnOk result (out.new.items ≡ out.old.items ++ spelled self.now) };
}

/// A name, or nothing where there is none.
fn write_name_of(out: &mut Vec<u8>, name: &Option<Text>) -> Result<(), AllocError>
    ensures { OnOk result (out.new.items ≡ out.old.items ++ text.name_text name.now) }
{
    if let Some(name) = name {
        write_name(out, name)?;
    }
    Ok(())
}

fn write_digits(out: &mut Vec<u8>, number: u64) -> Result<(), AllocError>
    ensures { OnOk result (out.new.items ≡ out.old.items ++ decimal number) }
{
    let mut buffer = Buffer::new();
    out.extend_from_slice(buffer.format(number).as_bytes())
}

/// A number, with all its digits.
pub fn write_number(out: &mut Vec<u8>, number: u64) -> Result<(), AllocError>
    ensures { OnOk result (out.new.items ≡ out.old.items ++ numeral number) }
{
    write_digits(out, number)
}

/// The name of a column, and its number after `#`.
fn write_column(out: &mut Vec<u8>, name: &Option<Text>, id: ColumnId) -> Result<(), AllocError>
    ensures { OnOk result (out.new.items ≡ out.old.items ++ (text.name_text name.now ++ codes "#" ++ numeral id.0)) }
{
    write_name_of(out, name)?;
    out.extend_from_slice(b"#")?;
    write_number(out, id.0)
}

impl Spelled for ColumnRef {
    ghost spelled = { text.ref_text };

    fn write(&self, out: &mut Vec<u8>) -> Result<(), AllocError> {
        write_column(out, &self.name, self.id)
    }
}

impl Spelled for MadeColumn {
    ghost spelled = { text.made_text };

    fn write(&self, out: &mut Vec<u8>) -> Result<(), AllocError> {
        write_column(out, &self.name, self.id)?;
        out.extend_from_slice(b" ")?;
        write_type(out, &self.ty)
    }
}

impl Spelled for Output {
    ghost spelled = { text.output_text };

    fn write(&self, out: &mut Vec<u8>) -> Result<(), AllocError> {
        write_name_of(out, &self.name)?;
        out.extend_from_slice(b"=")?;
        self.column.write(out)?;
        out.extend_from_slice(b" ")?;
        write_type(out, &self.ty)
    }
}

/// A missing one is a dash.
impl<C: Spelled> Spelled for Option<C> {
    ghost spelled = { text.or_dash C.spelled };

    fn write(&self, out: &mut Vec<u8>) -> Result<(), AllocError> {
        match self {
            None => out.extend_from_slice(b"-"),
            Some(column) => column.write(out),
        }
    }
}

/// Writes a list in square brackets.
#[tactic(auto, unfolding(crate::specs::TreeText::list_text))]
pub fn write_list<C: Spelled>(out: &mut Vec<u8>, list: &[C]) -> Result<(), AllocError>
    ensures { OnOk result (out.new.items ≡ out.old.items ++ text.list_text C.spelled list.now) }
{
    out.extend_from_slice(b"[")?;
    write_joined(out, list)?;
    out.extend_from_slice(b"]")
}

fn write_joined<C: Spelled>(out: &mut Vec<u8>, list: &[C]) -> Result<(), AllocError>
    ensures { OnOk result (out.new.items ≡ out.old.items ++ joined (map C.spelled list.now)) }
{
    for (place, part) in list.iter().enumerate() {
        write_separator(out, place)?;
        part.write(out)?;
    }
    Ok(())
}
