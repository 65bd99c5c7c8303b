//! Tests of what serves a split program: messages, the lock. Tables of cases, over public functions alone.
#![tactic(auto)]

#[cfg(test)]
mod lock;
#[cfg(test)]
mod messages;
