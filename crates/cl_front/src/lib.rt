//! Reads sources: their trees, those trees that a run takes, and why and where the others are refused.
//!
//! - `front`: the reader of all sources; `judge`: the reader of sources for a run.
//! - `refusal`: why a source is refused, and at which byte; `place`: the line and the column of a byte.
#![tactic(auto)]

mod front;
mod judge;
mod place;
mod refusal;

pub use front::{FrontEnd, read_source};
pub use judge::judge_source;
pub use place::{Place, line_column};
pub use refusal::{Refusal, RefusalKind};
