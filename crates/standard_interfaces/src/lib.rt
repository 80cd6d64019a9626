//! The interfaces that the standard fixes, `org.varlink.service` and `org.varlink.resolver`, as trees: their texts
//! are the canonical ones of these trees, and the standard's error replies read by what is declared there
//! (varlink.org, "Service").
#![tactic(auto)]

mod laws;

pub use laws::{standard_errors_read, texts_are_accepted};
