//! What the words of a command line mean where they name a command that needs the network: `serve`, `resolver`,
//! `call`, `resolve` and `bridge`.
#![tactic(auto)]

mod calls;
mod given;
mod meanings;
mod numbers;
mod settings;

pub use meanings::{Network, Serving, Target, Way, is_network, network_of};
pub use numbers::number_to;
