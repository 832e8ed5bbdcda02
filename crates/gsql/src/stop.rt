//! Why a run stops before it has an answer.
use crate::status::LimitName;
use std::alloc::AllocError;

/// Why a run stops before it has an answer.
#[derive(Clone, Copy, Debug, PartialEq, Eq)]
pub enum Stop {
    /// A query whose text has no tokens: the place of the first byte of the token or comment that can't be read.
    Unread(u64),
    /// A catalog or query of a form that isn't taken.
    OtherForm,
    /// A file or text above a limit.
    Limit(LimitName),
    /// A table file whose first faulty cell is the field `field` of the record `row`, both from 0; record 0 is the header.
    BadTable { row: u64, field: u64 },
    /// A file that can't be read.
    ReadFault(u64),
    OutOfMemory,
}

impl From<AllocError> for Stop {
    ghost use Rattle.std.specs.Prelude.{◌≡◌};
    ghost use Rattle.gsql.specs.declared.stop.Stop.TheVariants.{OutOfMemory};

    ghost from_gives = { λ _ e. e ≡ OutOfMemory };

    fn from(_: AllocError) -> Stop {
        Stop::OutOfMemory
    }
}
