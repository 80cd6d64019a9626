//! Reads a Varlink interface definition, and a type of one.
#![tactic(auto)]

mod faults;
mod laws;
mod reader;
mod steps;
mod types;
mod words;

pub use faults::IdlFault;
pub use laws::one_cause;
pub use reader::read;
pub use types::read_type;
