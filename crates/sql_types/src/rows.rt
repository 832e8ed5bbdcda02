//! Rows whose values fit their columns, tables and parameters.
ghost use Rattle.std.specs.Prelude.{◌≡◌, ◌<◌, ◌++◌, ◌∷◌, [], length, slice_get, Some, true, OnOk, OnErr};
ghost use Rattle.std.specs.List.{list_all};
ghost use Rattle.sql_types.specs.Fits.{fits_row};

use crate::fault::FaultKind;
use crate::sql_type::{Columns, SqlType};
use crate::value::{Value, Values};
use lists::{Items, ListType, Text};
use std::alloc::{AllocError, Global};

/// Columns and a list of rows. Each row has one fitting value per column, by this type.
#[derive(Drop)]
pub struct Rows {
    pub columns: Columns,
    pub rows: Items<Values>,
    ghost fitting: { list_all (fits_row columns) rows ≡ true },
}

impl Rows {
    /// No row yet, under these columns. It takes no memory.
    pub fn start(alloc: Global, columns: Columns) -> Rows
        ensures columns { result.columns ≡ columns }
        ensures rows { result.rows ≡ [] }
    {
        Rows {
            columns,
            rows: Items::new(alloc),
        }
    }

    /// Adds a row at the end. It has one fitting value per column.
    pub fn add(&mut self, row: Values) -> Result<(), AllocError>
        requires { fits_row self.old.columns row ≡ true }
        ensures columns { self.new.columns ≡ self.old.columns }
        ensures ok { OnOk result (self.new.rows ≡ self.old.rows ++ row ∷ []) }
        ensures err { OnErr result (self.new.rows ≡ self.old.rows) }
    {
        self.rows.push(row)
    }

    /// The columns, in order.
    pub fn columns(&self) -> &Columns
        ensures { result.now ≡ self.now.columns }
    {
        &self.columns
    }

    /// How many rows there are.
    pub fn len(&self) -> usize
        ensures { result ≡ length self.now.rows }
    {
        self.rows.len()
    }

    /// The row at an index below the length, from 0.
    pub fn row(&self, index: usize) -> &Values
        requires { index < length self.now.rows }
        ensures { slice_get self.now.rows index ≡ Some result.now }
    {
        self.rows.at(index)
    }
}

/// The rows of each table, by its number in the catalog.
pub type Tables = Items<Rows>;

/// A parameter: its name, its type and its value.
#[derive(Drop)]
pub struct Param {
    pub name: Text,
    pub ty: SqlType,
    pub value: Value,
}

/// The parameters in the order of the catalog.
pub type Params = Items<Param>;

/// What an evaluation answers.
#[derive(Drop)]
pub enum Answer {
    Rows(Rows),
    Fault(FaultKind),
}
