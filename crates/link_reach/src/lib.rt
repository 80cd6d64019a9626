//! How services are reached: links that are dialled by address, what is sent on them and taken from
//! them, and a reach in memory.
#![tactic(auto)]

mod deeds;
mod mem_links;
mod mem_reaches;
mod reaches;

pub use deeds::{Deed, DialFault, LinkNo, LinkState};
pub use mem_reaches::MemReach;
pub use reaches::Reach;
