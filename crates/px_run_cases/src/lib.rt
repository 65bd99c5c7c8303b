//! Tests of what runs a program from its tree, and of what it stands on: values, tables, printed texts, files. Tables of cases, over public functions alone.
#![tactic(auto)]

#[cfg(test)]
mod outside;
#[cfg(test)]
mod rows;
#[cfg(test)]
mod runs;
#[cfg(test)]
mod values;
