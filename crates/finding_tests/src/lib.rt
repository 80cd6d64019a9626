//! What a resolver tells of addresses, over links in memory.
#![tactic(auto)]

#[cfg(test)]
mod finding;
