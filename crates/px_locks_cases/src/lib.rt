//! What sessions are told that ask for locks, found by hand.
#![tactic(auto)]

#[cfg(test)]
mod steps;
