//! Whole sheets: what is read of each, and which of its parts is refused first.
#![tactic(auto)]

#[cfg(test)]
mod lines;
#[cfg(test)]
mod tables;
