//! Sources, sinks and the lines of a stream, with counted faults.
#![tactic(auto)]

mod again;
mod bytes;
mod failing;
mod folder;
mod lines;
mod memory;
mod part;
mod real;
mod sink;
mod source;

pub use again::read_again;
pub use bytes::Bytes;
pub use failing::FailingCalls;
pub use folder::sync_folder_of;
pub use lines::{Line, Lines};
pub use memory::{MemorySink, MemorySource};
pub use real::{FileSource, ReaderSource, WriterSink};
pub use sink::{Sink, write_all};
pub use source::{Failed, Source};
