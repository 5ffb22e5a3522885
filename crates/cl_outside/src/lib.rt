//! Reading and writing bytes, with a count of faults that never falls.
//!
//! A source and a sink tell their bytes to contracts, where these are known, and count their faults.
//! Everything above reads and writes through them, so that an error can be told only where a read or a
//! write has failed. The files are in the order in which they stand on one another:
//!
//! - `stream`: what a source and a sink are.
//! - `bytes`: what is done with bytes in memory.
//! - `memory_source` and `memory_sink`: both in memory, which fail where they are told to.
//! - `wrapped`: a reader and a writer of the library as a source and a sink.
//! - `reading` and `writing`: to read all there is, up to a limit, and to write all.
#![tactic(auto)]

mod bytes;
mod memory_sink;
mod memory_source;
mod reading;
mod stream;
mod wrapped;
mod writing;

pub use memory_sink::MemSink;
pub use memory_source::MemSource;
pub use reading::{ReadEnd, read_all};
pub use stream::{Failed, Sink, Source};
pub use wrapped::{ReaderSource, WriterSink};
pub use writing::{WriteEnd, write_all};
