//! Files that are read and sinks that are written to, each with a count of its faults.
#![tactic(auto)]

mod asked;
mod clean;
mod count;
mod faults;
mod files;
mod mem_files;
mod mem_sink;
mod real_files;
mod real_sink;
mod shelf;
mod sinks;

pub use asked::Asked;
pub use clean::{CleanFiles, CleanSink};
pub use files::{FetchFault, Files};
pub use mem_files::MemFiles;
pub use mem_sink::MemSink;
pub use real_files::{RealFiles, Stopped, read_within};
pub use real_sink::RealSink;
pub use sinks::{Sink, SinkFault, emit};
