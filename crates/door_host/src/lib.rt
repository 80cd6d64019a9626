//! A service at several doors at once: each door has a worker with a seat at one desk, and all steps that their
//! connections ask for are one history. A registry is served in the same way.
#![tactic(auto)]

mod hosts;
mod keepers;
mod porters;
mod resolvers;
mod rounds;

pub use hosts::{FORGOTTEN_LIMIT, HISTORY_LIMIT, PASS_ASKS, Served, serve};
pub use resolvers::serve_registry;
