//! What every layer of Syntox speaks of: places in a source, operators, the kinds of runtime checks, and the outside:
//! files, given bytes and sinks, and how they are read and written whole.
#![tactic(auto)]

mod kind;
mod memory;
mod operator;
mod outside;
mod place;
mod reading;
#[cfg(test)]
mod tests;
mod writing;

pub use kind::Kind;
pub use memory::{MemShelf, MemSink, MemSource, SureShelf, SureSink, SureSource};
pub use operator::{BinOp, UnOp};
pub use outside::{Failed, Shelf, Sink, Source};
pub use place::{Pos, Span, pos_of};
pub use reading::{ReadEnd, read_all, read_file};
pub use writing::write_all;
