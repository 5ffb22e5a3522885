//! Tests of sources: what reading and judging comes to, the text that is printed of them, and what their
//! operations are.
#![tactic(auto)]

#[cfg(test)]
mod tests;
