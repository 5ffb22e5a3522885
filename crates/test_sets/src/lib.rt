//! Tests of the sets of a program, of their classes, of the operations on a set and of tickets, by their
//! public calls: what no clause says.
#![tactic(auto)]

#[cfg(test)]
mod tests;
