//! What doors and connections in memory give and keep, at the bytes.
#![tactic(auto)]

#[cfg(test)]
mod doors;
