//! What is done over links in memory, at the bytes, each public function once.
#![tactic(auto)]

#[cfg(test)]
mod reaches;
