//! The calls of the standard's interfaces that a client makes by itself, and what their replies say: where an
//! interface is served, and what the replies of a method are (varlink.org, "Resolver" and "Service").
#![tactic(auto)]

mod addresses;
mod asking;
mod descriptions;
mod faults;

pub use addresses::address_in;
pub use asking::{description_call, resolve_call};
pub use descriptions::Described;
pub use faults::{NoAddress, NoDescription};
