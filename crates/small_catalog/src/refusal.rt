//! Why a catalog isn't read.
use std::alloc::AllocError;
use thiserror::Error;

/// Why a catalog isn't read.
#[derive(Clone, Copy, Debug, PartialEq, Eq, Error)]
pub enum CatalogRefusal {
    /// The bytes are no JSON, or not that of a catalog with one table of INT64 and STRING columns alone.
    #[error("a catalog of another form")]
    OtherForm,
    #[error("out of memory")]
    OutOfMemory,
}

impl From<AllocError> for CatalogRefusal {
    ghost use Rattle.std.specs.Prelude.{◌≡◌};
    ghost use Rattle.small_catalog.specs.declared.refusal.CatalogRefusal.TheVariants.{OutOfMemory};

    ghost from_gives = { λ _ e. e ≡ OutOfMemory };

    fn from(_: AllocError) -> CatalogRefusal {
        CatalogRefusal::OutOfMemory
    }
}
