//! Tests of partition graphs and of the chooser. Tables of cases, over public functions alone.
#![tactic(auto)]

#[cfg(test)]
mod choices;
#[cfg(test)]
mod graphs;
#[cfg(test)]
mod sums;
