//! Calls by the name of an interface, over links in memory.
#![tactic(auto)]

#[cfg(test)]
mod ways;
