//! The text of a query.
ghost use Rattle.std.specs.Prelude.{◌≡◌, IfOk};
ghost use Rattle.sql_ast.specs.Canon.{Canon};

use crate::printed::Printed;
use crate::writer::Writer;
use sql_ast::Query;
use sql_types::{Bytes, OutOfMemory};
use std::alloc::Global;

/// The canonical print of a query, in time linear in the tree.
pub fn print_query(alloc: Global, query: &Query) -> Result<Bytes, OutOfMemory>
    ensures { IfOk result (λ text. text ≡ Canon query.now) }
{
    let mut writer = Writer::new(alloc);
    query.print(&mut writer)?;
    Ok(writer.finish())
}
