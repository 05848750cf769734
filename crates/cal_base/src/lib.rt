//! What a run has of the outside: files that are read, a sink that is written, and the status that it ends with.
#![tactic(auto)]

mod fault;
mod loading;
mod memory_library;
mod memory_sink;
mod outside;
mod status;
mod writing;

pub use fault::{Failed, LoadFault};
pub use loading::load;
pub use memory_library::MemoryLibrary;
pub use memory_sink::MemorySink;
pub use outside::{Library, Sink};
pub use status::Status;
pub use writing::write_all;
