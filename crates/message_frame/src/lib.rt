//! Messages cut out of a stream of bytes: each message is its payload followed by one NUL byte.
#![tactic(auto)]

mod framing;
mod laws;

pub use framing::{Frames, Next};
pub use laws::{nothing_lost, one_cut};
