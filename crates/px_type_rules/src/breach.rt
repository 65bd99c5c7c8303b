//! Breaches of rules.

/// A breach of the rule with this code, at a token, by its number from 0.
#[derive(Clone, Copy, Debug, PartialEq, Eq)]
pub struct Breach {
    pub token: u32,
    pub code: u8,
}
