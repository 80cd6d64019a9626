//! Definitions that take another's place, and those that don't.
#![tactic(auto)]

#[cfg(test)]
mod rows;
