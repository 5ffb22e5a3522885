//! Tickets that threads draw for their acts: one order over all sets of tuples.
//!
//! Each set of tuples and each process has a token that stands for it in contracts. A process enters a set,
//! draws a ticket for what it does there, and leaves; a ticket is drawn by one atomic addition, without a
//! lock. Between any two atomic steps of any threads the ticket rule holds (`specs/Rule.antt`); at the end
//! `close` tells what it says of the acts of all processes and all sets.
//!
//! A token that is dropped leaves `close` out of reach, since some process or set is then missing.
#![tactic(auto)]

mod closing;
mod drawing;
mod guests;
mod halting;
mod opening;
mod table;
mod tokens;
mod view;

pub use crate::closing::{Closed, close, gather};
pub use crate::drawing::{born, draw};
pub use crate::guests::{enter, leave, leave_full};
pub use crate::halting::{halt, see_halt};
pub use crate::opening::{begin_table, make};
pub use crate::tokens::{Blank, Plan, ProcSeat, SetSeat, Tickets};
pub use crate::view::View;
