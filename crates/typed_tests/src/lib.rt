//! Typed calls of a client over links in memory, each public function once.
#![tactic(auto)]

#[cfg(test)]
mod calls;
