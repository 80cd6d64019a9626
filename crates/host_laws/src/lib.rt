//! Laws of services at several doors.
#![tactic(auto)]

mod laws;

pub use laws::entries_are_shallow;
