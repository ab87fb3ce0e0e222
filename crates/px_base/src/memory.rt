//! Shelves, sources and sinks in memory, for tests and for callers that have their bytes already.
mod calls;
mod shelf;
mod sink;
mod source;
mod sure;
mod unread;

pub use shelf::MemShelf;
pub use sink::MemSink;
pub use source::MemSource;
pub use sure::{SureShelf, SureSink, SureSource};
