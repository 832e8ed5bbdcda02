//! Why a tree isn't checked.
use resolved_ast::FlawKind;
use std::alloc::AllocError;
use thiserror::Error;

/// Why a tree isn't checked.
#[derive(Clone, Copy, Debug, PartialEq, Eq, Error)]
pub enum CheckRefusal {
    /// The first flaw: the number of the faulty node in the order of the tree's text, from 0, and what it breaks.
    #[error("node {place} of the tree breaks {kind:?}")]
    Flaw { place: u64, kind: FlawKind },
    #[error("out of memory")]
    OutOfMemory,
}

impl From<AllocError> for CheckRefusal {
    ghost use Rattle.std.specs.Prelude.{◌≡◌};
    ghost use Rattle.tree_check.specs.declared.refusal.CheckRefusal.TheVariants.{OutOfMemory};

    ghost from_gives = { λ _ e. e ≡ OutOfMemory };

    fn from(_: AllocError) -> CheckRefusal {
        CheckRefusal::OutOfMemory
    }
}
