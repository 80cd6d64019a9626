//! The real edges to sockets and child programs: links that are dialled, and doors that are bound.
//!
//! They tell how many calls of the system failed, and none of the bytes that the system moves.
#![tactic(auto)]

mod children;
mod connections;
mod doors;
mod fault_counts;
mod link_ends;
mod links;
mod real_binders;
mod real_reaches;
mod socket_files;
mod streams;

pub use connections::RealConn;
pub use doors::RealDoor;
pub use link_ends::{RealDown, RealUp};
pub use real_binders::RealBinder;
pub use real_reaches::RealReach;
