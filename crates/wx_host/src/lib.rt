//! The world outside: files by name and the output, as traits, in memory and over the system.
#![tactic(auto)]

mod file;
mod host_sink;
mod host_store;
mod mem_sink;
mod mem_store;
mod names;
mod outages;
mod sink;
mod store;
mod whole_file;

pub use file::File;
pub use host_sink::HostSink;
pub use host_store::HostStore;
pub use mem_sink::MemSink;
pub use mem_store::MemStore;
pub use sink::{Sink, SinkFault};
pub use store::{Store, StoreFault};
