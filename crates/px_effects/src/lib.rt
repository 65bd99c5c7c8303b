//! What statements and expressions do to what the frames of a call share. Whoever gives a meaning to source or code lifts these.
#![tactic(auto)]
