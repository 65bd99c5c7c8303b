//! Tests of what reads and judges files: words, grammar, type rules, SQL, jobs. Tables of cases, over public functions alone.
#![tactic(auto)]

#[cfg(test)]
mod grammar;
#[cfg(test)]
mod jobs;
#[cfg(test)]
mod rules;
#[cfg(test)]
mod rules_database;
#[cfg(test)]
mod rules_limits;
#[cfg(test)]
mod rules_sql;
#[cfg(test)]
mod rules_types;
#[cfg(test)]
mod words;
