//! What is bound in memory, at the bytes, each public function once.
#![tactic(auto)]

#[cfg(test)]
mod binders;
