//! Where an interface is served, as a resolver tells it.
#![tactic(auto)]

mod ends;
mod finding;

pub use ends::{ResolveEnd, ResolveFault};
pub use finding::resolve;
