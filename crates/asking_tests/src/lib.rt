//! What a client asks by itself, and what it reads of the replies, each public function once.
#![tactic(auto)]

#[cfg(test)]
mod asking;
