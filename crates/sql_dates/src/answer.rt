//! Answers of calls.
ghost use Rattle.std.specs.Prelude.{◌≡◌};
ghost use Rattle.sql_dates.specs.Apply as rows;
ghost use Rattle.sql_dates.specs.Arguments.{answered};

use sql_types::{CallFault, FaultKind, Value};

/// The DATE of a day, or the fault where there is none.
pub(crate) fn dated(day: Option<i32>, fault: FaultKind) -> Result<Value, CallFault>
    ensures { result ≡ answered (rows.dated fault day) }
{
    match day {
        Some(day) => Ok(Value::Date(day)),
        None => Err(CallFault::Fault(fault)),
    }
}
