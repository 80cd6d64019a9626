//! How doors are bound to addresses, and a binder in memory.
#![tactic(auto)]

mod binders;
mod bound_doors;
mod mem_binders;

pub use binders::{Bind, Binder};
pub use bound_doors::BoundDoor;
pub use mem_binders::MemBinder;
