//! Tests of the program and of what it stands on: whole calls over sources in memory, runs of one process with few
//! acts, and walks of live tuples.
#![tactic(auto)]

#[cfg(test)]
mod tests;
