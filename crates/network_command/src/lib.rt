//! The commands of `varlink` that need the network: `call`, `resolve`, `serve` and `resolver`.
#![tactic(auto)]

mod calling;
mod commands;
mod ends;
mod fault_lines;
mod faults;
mod resolving;
mod worlds;

pub use commands::online;
pub use fault_lines::write_network_line;
pub use faults::NetworkFault;
pub use worlds::{Network, NetworkWorld};
