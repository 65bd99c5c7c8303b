//! Tests of sends: programs at placements, and the sends that they need.
#![tactic(auto)]

#[cfg(test)]
mod placed;
#[cfg(test)]
mod sends;
