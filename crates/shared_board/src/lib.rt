//! A board as a service has one, a checked definition and a list of values, under a desk that
//! threads share: its pass is split, the parts ask in threads and are joined, and the desk is closed.
#![tactic(auto)]

mod askers;
mod boards;
mod runs;
#[cfg(test)]
mod tests;

pub use askers::Asker;
pub use boards::Board;
pub use runs::{ask_by_two, ask_in_threads, gather};
