//! The catalog, whose entries are found by name.
ghost use Rattle.std.specs.Prelude.{◌≡◌, ◌<◌, ◌++◌, ◌∷◌, [], length, slice_get, Some, true, false, IfSome, OnOk, OnErr};
ghost use Rattle.sql_catalog.specs.Answers.{Adds};
ghost use Rattle.sql_catalog.specs.Names as names;
ghost use Rattle.sql_catalog.specs.Names.{IsThere, TakenOnce, is_view_at, taken_in_from, taken_by_calls, taken_by_params};

use crate::built_in::is_built_in;
use crate::by_name::ByName;
use crate::entries::{Definition, FunctionDef, ParamDef, TableDef, TableOrView, ViewDef};
use crate::refusal::AddRefusal;
use sql_types::Text;
use std::alloc::Global;
use std::marker::Model;

/// The entries of a catalog in order, found by name. Contracts see it as its lists of entries.
///
/// Names are compared without regard to ASCII case. Tables and views share their names, and functions and parameters
/// have names of their own. Views and functions are counted together as definitions, from 0.
#[derive(Drop)]
pub struct Catalog {
    tables: ByName<TableDef>,
    definitions: ByName<Definition>,
    params: ByName<ParamDef>,
}

impl Model for Catalog {
    ghost use Rattle.sql_catalog.specs.contracts.entries.Entries.{the_row};
    ghost use Rattle.sql_catalog.specs.declared.entries.Entries.{Entries};
    ghost use Rattle.sql_catalog.specs.Names.{TakenOnce};

    ghost Value = { Entries };

    ghost coded = { the_row.coded };

    ghost view = { λ c. record { tables = c.tables; definitions = c.definitions; params = c.params } };

    ghost invariant = { λ c. TakenOnce (record { tables = c.tables; definitions = c.definitions; params = c.params }) };
}

impl Catalog {
    /// A catalog with no entries. It takes no memory.
    pub fn start(alloc: Global) -> Catalog
        ensures tables { result.tables ≡ [] }
        ensures definitions { result.definitions ≡ [] }
        ensures params { result.params ≡ [] }
    {
        Catalog {
            tables: ByName::start(alloc),
            definitions: ByName::start(alloc),
            params: ByName::start(alloc),
        }
    }

    /// Adds a table behind the others. It is a duplicate exactly where a table or a view has its name.
    /// After a refusal the catalog is as before.
    pub fn add_table(&mut self, table: TableDef) -> Result<(), AddRefusal>
        ensures answer { Adds (taken_in_from self.old table.name) result }
        ensures added { OnOk result (self.new ≡ record self.old { tables = self.old.tables ++ table ∷ [] }) }
        ensures kept { OnErr result (self.new ≡ self.old) }
    {
        if self.definitions.has(&table.name, false) {
            return Err(AddRefusal::Duplicate);
        }
        self.tables.add(table)
    }

    /// Adds a view behind the other definitions. It is a duplicate exactly where a table or a view has its name.
    /// After a refusal the catalog is as before.
    pub fn add_view(&mut self, view: ViewDef) -> Result<(), AddRefusal>
        ensures answer { Adds (taken_in_from self.old view.name) result }
        ensures added { OnOk result (self.new ≡ record self.old { definitions = self.old.definitions ++ Definition.View view ∷ [] }) }
        ensures kept { OnErr result (self.new ≡ self.old) }
    {
        if self.tables.has(&view.name, false) {
            return Err(AddRefusal::Duplicate);
        }
        self.definitions.add(Definition::View { view })
    }

    /// Adds a function behind the other definitions. It is a duplicate exactly where a function, or an operator, a
    /// function or an aggregate of the language has its name. After a refusal the catalog is as before.
    pub fn add_function(&mut self, function: FunctionDef) -> Result<(), AddRefusal>
        ensures answer { Adds (taken_by_calls self.old function.name) result }
        ensures added { OnOk result (self.new ≡ record self.old { definitions = self.old.definitions ++ Definition.Function function ∷ [] }) }
        ensures kept { OnErr result (self.new ≡ self.old) }
    {
        if is_built_in(&function.name) {
            return Err(AddRefusal::Duplicate);
        }
        self.definitions.add(Definition::Function { function })
    }

    /// Adds a parameter behind the others. It is a duplicate exactly where a parameter has its name.
    /// After a refusal the catalog is as before.
    pub fn add_param(&mut self, param: ParamDef) -> Result<(), AddRefusal>
        ensures answer { Adds (taken_by_params self.old param.name) result }
        ensures added { OnOk result (self.new ≡ record self.old { params = self.old.params ++ param ∷ [] }) }
        ensures kept { OnErr result (self.new ≡ self.old) }
    {
        self.params.add(param)
    }

    /// The table or view of this name. It takes no memory.
    pub fn find_table(&self, name: &Text) -> Option<TableOrView>
        ensures found { result ≡ names.find_table self.now name.now }
        ensures there { IfSome result (IsThere self.now) }
    {
        if let Some(number) = self.tables.find(name, false) {
            return Some(TableOrView::Table(number));
        }
        let number = self.definitions.find(name, false)?;
        Some(TableOrView::View(number))
    }

    /// The function of this name, by its number among the definitions. It takes no memory.
    pub fn find_function(&self, name: &Text) -> Option<usize>
        ensures found { result ≡ names.find_function self.now name.now }
        ensures there { IfSome result (λ number. is_view_at self.now number ≡ Some false) }
    {
        self.definitions.find(name, true)
    }

    /// The parameter of this name. It takes no memory.
    pub fn find_param(&self, name: &Text) -> Option<usize>
        ensures found { result ≡ names.find_param self.now name.now }
        ensures there { IfSome result (λ number. number < length self.now.params) }
    {
        self.params.find(name, false)
    }

    /// The number of tables.
    pub fn tables(&self) -> usize
        ensures count { result ≡ length self.now.tables }
        ensures once { TakenOnce self.now }
    {
        self.tables.len()
    }

    /// The number of views and functions together.
    pub fn definitions(&self) -> usize
        ensures { result ≡ length self.now.definitions }
    {
        self.definitions.len()
    }

    /// The number of parameters.
    pub fn params(&self) -> usize
        ensures { result ≡ length self.now.params }
    {
        self.params.len()
    }

    /// The table of a number, which is below the number of tables.
    pub fn table(&self, number: usize) -> &TableDef
        requires { number < length self.now.tables }
        ensures { slice_get self.now.tables number ≡ Some result.now }
    {
        self.tables.at(number)
    }

    /// Whether the definition of a number, which is below the number of definitions, is a view.
    pub fn is_view(&self, number: usize) -> bool
        requires { number < length self.now.definitions }
        ensures { is_view_at self.now number ≡ Some result }
    {
        match self.definitions.at(number) {
            Definition::View { .. } => true,
            Definition::Function { .. } => false,
        }
    }

    /// The view of a number, which is that of a view.
    pub fn view(&self, number: usize) -> &ViewDef
        requires { is_view_at self.now number ≡ Some true }
        ensures { slice_get self.now.definitions number ≡ Some (Definition.View result.now) }
    {
        match self.definitions.at(number) {
            Definition::View { view } => view,
            Definition::Function { .. } => unreachable!(),
        }
    }

    /// The function of a number, which is that of a function.
    pub fn function(&self, number: usize) -> &FunctionDef
        requires { is_view_at self.now number ≡ Some false }
        ensures { slice_get self.now.definitions number ≡ Some (Definition.Function result.now) }
    {
        match self.definitions.at(number) {
            Definition::Function { function } => function,
            Definition::View { .. } => unreachable!(),
        }
    }

    /// The parameter of a number, which is below the number of parameters.
    pub fn param(&self, number: usize) -> &ParamDef
        requires { number < length self.now.params }
        ensures { slice_get self.now.params number ≡ Some result.now }
    {
        self.params.at(number)
    }
}
