//! What stands outside: sources, sinks and shelves of bytes, the texts that pass between them, and the
//! status in which a run ends.
#![tactic(auto)]

mod buffers;
mod call_logs;
mod fields;
mod lines;
mod memory_shelves;
mod memory_sinks;
mod memory_sources;
mod places;
mod shelves;
mod sinks;
mod sources;
mod statuses;
mod texts;
mod writing;
mod writing_laws;

pub use buffers::Buffered;
pub use fields::{is_blank, next_field};
pub use lines::next_line;
pub use memory_shelves::{MemShelf, SureShelf};
pub use memory_sinks::{MemSink, SureSink};
pub use memory_sources::{MemSource, SureSource};
pub use shelves::{Fetched, Shelf, Stored};
pub use sinks::{Put, Sink, SinkEnd};
pub use sources::{Got, Source};
pub use statuses::Status;
pub use texts::{Text, WordList};
pub use writing::{write_all, write_each};
pub use writing_laws::{texts_grow, texts_join};

#[cfg(test)]
mod cutting_tests;
#[cfg(test)]
mod tests;
