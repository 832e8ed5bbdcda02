//! The outside of the product: what it reads from, and what it writes to.
//!
//! `Inputs` and `Sink` are the traits that the product is written over. `MemInputs` and `MemSink` keep their bytes in
//! memory and fail where they are told to. `HostFiles` and `HostOut` stand before the files and the standard streams of
//! the host. `read_file` and `write_all` move whole texts.
#![tactic(auto)]

pub mod calls;
pub mod files;
pub mod host_files;
pub mod host_out;
pub mod inputs;
pub mod mem_inputs;
pub mod mem_sink;
pub mod sink;
#[cfg(test)]
mod tests;
pub mod whole;

pub use calls::Calls;
pub use files::{Files, NamedFile};
pub use host_files::HostFiles;
pub use host_out::HostOut;
pub use inputs::{Failed, Inputs};
pub use lists::{Bytes, OutOfMemory};
pub use mem_inputs::MemInputs;
pub use mem_sink::MemSink;
pub use sink::Sink;
pub use whole::{ReadRefusal, read_file, write_all};
