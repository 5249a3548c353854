//! The outside as the program sees it: what it reads from and what it writes to.
//!
//! A `Source` tells what is left to read, a `Sink` what it holds, and each how often it has failed. `read_all` reads a
//! source to its end. There are ends in memory for tests, and adapters over any reader and writer of std.
#![tactic(auto)]

mod adapter;
mod counts;
mod memory;
mod reading;
mod shelf;
mod sink;
mod source;
mod sure;

pub use adapter::{ReadSource, WriteSink};
pub use memory::{MemorySink, MemorySource};
pub use reading::{ReadAllError, read_all};
pub use sink::Sink;
pub use source::{Failed, Source};
pub use sure::{SureSink, SureSource};
