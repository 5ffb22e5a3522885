//! The bytes of texts: a buffer that grows, a buffer of fixed room before a sink, and values and tuples as they are
//! printed.
#![tactic(auto)]

mod buffer;
mod growing;
mod text;
mod values;

pub use buffer::OutputBuffer;
pub use growing::Growing;
pub use text::Text;
