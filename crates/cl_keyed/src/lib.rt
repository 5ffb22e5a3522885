//! The store of a set each of whose templates asks for one value at a field: a list of tuples for each
//! value of that field.
//!
//! The crate promises what `TupleStore` says, with at most one comparison for each tuple that has the
//! template's value at the field. A call hashes that value at most once, and takes the first tuple of a
//! value in constant time. The table has the values that some tuple has, and no others: it doesn't grow
//! while values come and go.
#![tactic(auto)]

mod key;
mod keyed;
mod line;
mod room;
mod table;

pub use key::Key;
pub use keyed::Keyed;
