//! Doors: the addresses at which services are found, what connections are accepted from and given back
//! to, and connections and doors in memory.
#![tactic(auto)]

mod addresses;
mod connections;
mod doors;
mod gates;
mod listeners;
mod returned;

pub use addresses::{Address, AddressFault, addresses_are, addresses_read_back};
pub use connections::MemConn;
pub use doors::MemDoor;
pub use gates::{Gate, OpenGate};
pub use listeners::{Leave, Listener};
pub use returned::Returned;
