//! Why a table, a row or a cell isn't read.
use std::alloc::AllocError;
use thiserror::Error;

/// Why a table isn't read.
#[derive(Clone, Copy, Debug, PartialEq, Eq, Error)]
pub enum TableRefusal {
    /// The first place at fault. Records are counted from 0, the header, and so are the fields of a record.
    #[error("record {row}, field {field} is at fault")]
    Fault { row: u64, field: u64 },
    #[error("out of memory")]
    OutOfMemory,
}

/// Why a record is no row.
#[derive(Clone, Copy, Debug, PartialEq, Eq)]
pub(crate) enum RowRefusal {
    /// The first field at fault, from 0.
    Fault { field: u64 },
    OutOfMemory,
}

/// Why a cell has no value.
#[derive(Clone, Copy, Debug, PartialEq, Eq)]
pub(crate) enum CellRefusal {
    /// The cell writes no value of its column's type.
    NoValue,
    OutOfMemory,
}

impl From<AllocError> for TableRefusal {
    ghost use Rattle.std.specs.Prelude.{◌≡◌};
    ghost use Rattle.csv_tables.specs.declared.refusal.TableRefusal.TheVariants.{OutOfMemory};

    ghost from_gives = { λ _ e. e ≡ OutOfMemory };

    fn from(_: AllocError) -> TableRefusal {
        TableRefusal::OutOfMemory
    }
}

impl From<AllocError> for RowRefusal {
    ghost use Rattle.std.specs.Prelude.{◌≡◌};
    ghost use Rattle.csv_tables.specs.declared.refusal.RowRefusal.TheVariants.{OutOfMemory};

    ghost from_gives = { λ _ e. e ≡ OutOfMemory };

    fn from(_: AllocError) -> RowRefusal {
        RowRefusal::OutOfMemory
    }
}

impl From<AllocError> for CellRefusal {
    ghost use Rattle.std.specs.Prelude.{◌≡◌};
    ghost use Rattle.csv_tables.specs.declared.refusal.CellRefusal.TheVariants.{OutOfMemory};

    ghost from_gives = { λ _ e. e ≡ OutOfMemory };

    fn from(_: AllocError) -> CellRefusal {
        CellRefusal::OutOfMemory
    }
}
