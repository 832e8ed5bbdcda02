//! A plan over one table, and why there is none.
use sql_types::{Columns, Items, Value};
use std::alloc::AllocError;

/// What a query `SELECT names FROM table WHERE name = literal` answers of the rows of its table: those where the value
/// at one place equals the literal, and of each the values at some places. Places count from 0.
#[derive(Drop)]
pub struct Plan {
    /// The columns of the answer, in order, each under the name that the select list writes.
    pub columns: Columns,
    /// The place in a row of the table of each column of the answer.
    pub slots: Items<usize>,
    /// The place in a row of the table of the value that WHERE compares.
    pub test: usize,
    /// The literal of WHERE.
    pub literal: Value,
}

/// Why there is no plan.
#[derive(Clone, Copy, Debug, PartialEq, Eq)]
pub enum NoPlan {
    /// The query is of another form, or it breaks a rule of the language.
    OtherForm,
    /// Memory ran out.
    OutOfMemory,
}

impl From<AllocError> for NoPlan {
    ghost use Rattle.std.specs.Prelude.{◌≡◌};
    ghost use Rattle.small_run.specs.declared.form.NoPlan.TheVariants.{OutOfMemory};

    ghost from_gives = { λ _ e. e ≡ OutOfMemory };

    fn from(_: AllocError) -> NoPlan {
        NoPlan::OutOfMemory
    }
}
