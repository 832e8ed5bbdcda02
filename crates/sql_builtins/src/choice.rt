//! What is chosen for a call.
use crate::sig::SigId;
use sql_types::{SqlType, Types};

/// The signature of a call: the row, the type that each argument is converted to, and the type of the result.
#[derive(Drop)]
pub struct Choice {
    pub sig: SigId,
    pub targets: Types,
    pub gives: SqlType,
}
