//! What cores tell their sessions, by hand.
#![tactic(auto)]

#[cfg(test)]
mod schedules;
#[cfg(test)]
mod sessions;
