//! Tests of values, of reading and writing, and of the stores of tuples, by their public calls: what no
//! clause says.
#![tactic(auto)]

#[cfg(test)]
mod tests;
