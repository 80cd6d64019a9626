//! What a caller reads and writes, at the bytes, each public function once.
#![tactic(auto)]

#[cfg(test)]
mod messages;
