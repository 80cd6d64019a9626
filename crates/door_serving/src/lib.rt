//! Connections are served: by a seat at the desk of a service, or by a registry, one after another as a door gives them.
#![tactic(auto)]

mod attendants;
mod clerks;
mod connections;
mod doors;
mod speakers;
mod stops;
mod ushers;

pub use connections::serve_connection;
pub use doors::{WorkerEnd, serve_door, serve_registry_door};
