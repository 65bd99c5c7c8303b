//! Tests of what statements do to a heap: that they succeed, and what is printed.
#![tactic(auto)]

#[cfg(test)]
mod acts;
