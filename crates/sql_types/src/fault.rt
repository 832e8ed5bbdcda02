//! Faults of evaluation, and what a call that may also lack memory answers.
use std::alloc::AllocError;

/// Why an evaluation has no value.
#[derive(Clone, Copy, Debug, PartialEq, Eq)]
pub enum FaultKind {
    /// A number, a length or a place past its type's range.
    OutOfRange,
    DivisionByZero,
    /// A cast that fails, also that of a parameter to DATE.
    Cast,
    /// A scalar subquery with more than one row.
    ScalarRows,
    /// An index outside of its array.
    Index,
    /// An argument that the function doesn't take.
    Argument,
    /// A pattern of LIKE that ends in a backslash with nothing to escape.
    Pattern,
    /// A LIMIT or OFFSET that is NULL or negative.
    LimitValue,
    /// The fault that ERROR makes.
    User,
}

/// Why a call has no value.
#[derive(Clone, Copy, Debug, PartialEq, Eq)]
pub enum CallFault {
    Fault(FaultKind),
    OutOfMemory,
}

impl From<AllocError> for CallFault {
    ghost use Rattle.std.specs.Prelude.{◌≡◌};
    ghost use Rattle.sql_types.specs.declared.fault.CallFault.TheVariants.{OutOfMemory};

    ghost from_gives = { λ _ e. e ≡ OutOfMemory };

    fn from(_: AllocError) -> CallFault {
        CallFault::OutOfMemory
    }
}
