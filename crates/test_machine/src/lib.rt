//! Tests of the machine: processes of programs that are put together by hand, each shown valid.
#![tactic(auto)]

#[cfg(test)]
mod tests;
