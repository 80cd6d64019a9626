//! Calls on links in memory, at the bytes.
#![tactic(auto)]

#[cfg(test)]
mod exchanges;
