//! A log of acts as bytes: what an act is spelled as, how it is read again, and a list of acts in blocks that never move.
//!
//! The crate promises that a log has the acts that were put, and that a cursor reads them as they were. Only
//! making room and making a buffer take memory.
#![tactic(auto)]

mod block;
mod buffer;
mod cursor;
mod kind;
mod laws;
mod log;
mod number;
mod part;
mod read;
mod space;
mod write;
mod write_act;

pub use block::Block;
pub use buffer::ActBuffer;
pub use cursor::Cursor;
pub use kind::Kind;
pub use laws::{acts_are_read_as_spelled, answers_are_from_what_was_found};
pub use log::ActLog;
pub use number::NUMBER_ROOM;
pub use part::SeenPart;
pub use write::VALUE_ROOM;
pub use write_act::{HEAD_ROOM, put_act};
