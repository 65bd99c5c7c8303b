//! What the type rules promise of the parts of a program beside their types: how operands, tests and results are used.
#![tactic(auto)]
