//! Why an entry isn't added, and why a catalog isn't read.
use std::alloc::{AllocError, AllocFailed};
use thiserror::Error;

/// Why an entry isn't added.
#[derive(Clone, Copy, Debug, PartialEq, Eq, Error)]
pub enum AddRefusal {
    /// The name is taken.
    #[error("the name is taken")]
    Duplicate,
    #[error("out of memory")]
    OutOfMemory,
}

/// What is wrong with an entry of a catalog.
#[derive(Clone, Copy, Debug, PartialEq, Eq)]
pub enum CatalogKind {
    /// The file is no JSON.
    Json,
    /// It hasn't the keys of its sort, or a value of another kind stands at one.
    Shape,
    /// The version is another one than 1.
    Version,
    /// A name is empty or has more than 128 bytes.
    Name,
    /// A name is taken.
    Duplicate,
    /// A type or a value can't be read.
    Bad,
    /// A definition exceeds a limit on texts.
    Limit,
    /// The text of a definition breaks a rule, 1 to 30, at a place: a byte of that text, from 0.
    Body { rule: u8, place: u64 },
    /// A column of a view has no name, or one that another has.
    Columns,
}

/// Why a catalog isn't read.
#[derive(Clone, Copy, Debug, PartialEq, Eq, Error)]
pub enum CatalogRefusal {
    /// The first entry at fault. Entry 0 is the file, and from 1 on come tables, definitions and parameters.
    #[error("entry {entry} is at fault: {kind:?}")]
    Fault { entry: u64, kind: CatalogKind },
    #[error("out of memory")]
    OutOfMemory,
}

impl<T: Drop> From<AllocFailed<T>> for AddRefusal {
    ghost use Rattle.std.specs.Prelude.{◌≡◌};
    ghost use Rattle.sql_catalog.specs.declared.refusal.AddRefusal.TheVariants.{OutOfMemory};

    ghost from_gives = { λ _ e. e ≡ OutOfMemory };

    fn from(_: AllocFailed<T>) -> AddRefusal {
        AddRefusal::OutOfMemory
    }
}

impl From<AllocError> for CatalogRefusal {
    ghost use Rattle.std.specs.Prelude.{◌≡◌};
    ghost use Rattle.sql_catalog.specs.declared.refusal.CatalogRefusal.TheVariants.{OutOfMemory};

    ghost from_gives = { λ _ e. e ≡ OutOfMemory };

    fn from(_: AllocError) -> CatalogRefusal {
        CatalogRefusal::OutOfMemory
    }
}
