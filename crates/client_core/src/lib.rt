//! A client: calls that are made at an address or over a bridge that is started, each over a link of its own.
#![tactic(auto)]

mod calls;

pub use calls::{call_child, call_direct, call_on, end_of, lines_of, ready};
