//! Lists, boxes and texts that contracts see as what they hold.
#![tactic(auto)]

pub mod list_type;
#[cfg(test)]
mod tests;
pub mod text;

pub use list_type::ListType;
pub use sqlite_items::{Boxed, Items};
use std::alloc::AllocError;
pub use text::Text;

/// Memory ran out. It is the one answer whose cause no contract names.
pub type OutOfMemory = AllocError;

/// Bytes in order.
pub type Bytes = Items<u8>;
