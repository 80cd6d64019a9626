//! The work of a few methods, at the bytes of its texts and in its numbers.
#![tactic(auto)]

#[cfg(test)]
mod works;
