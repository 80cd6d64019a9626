//! A client: calls at an address, over a bridge that is started, and where a resolver says that an interface is served.
#![tactic(auto)]

mod direct;
mod ends;
mod unresolved;
mod ways;

pub use direct::{call_at, call_by_child};
pub use ends::{Ask, ClientEnd};
pub use ways::call_resolved;
