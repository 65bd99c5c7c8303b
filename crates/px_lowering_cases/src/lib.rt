//! Tests of the lowering: sources, and the text of their code.
#![tactic(auto)]

#[cfg(test)]
mod lowering;
#[cfg(test)]
mod text;
