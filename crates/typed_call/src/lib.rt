//! Calls whose replies are read by the definition that the called service gives, before they are passed on.
#![tactic(auto)]

mod calls;
mod describing;
mod ends;
mod outputs;

pub use calls::{typed_child, typed_direct};
pub use ends::{ReplyEnd, TypedEnd, Why};
